use link_words::{LinkBits, ShortLink};
use qh_qtd::{Bad, Qh, Qtd, Token, worked_layouts};
use std::test::Fail;

const END: ShortLink = ShortLink {
    t: true,
    address: 0,
};

#[test]
fn head_of_an_empty_ring(rt: HostRuntime) -> Result<(), Fail> {
    let words = [
        0x0000_1002,
        0x0040_A000,
        0x4000_0000,
        0,
        1,
        1,
        0x0000_0040,
        0,
        0,
        0,
        0,
        0,
    ];
    let head = Qh {
        link: LinkBits {
            t: false,
            typ: 1,
            address: 0x1000,
        },
        eps: 2,
        head: true,
        max: 64,
        mult: 1,
        token: Token {
            halted: true,
            ..Token::blank()
        },
        ..Qh::blank()
    };
    assert_eq!(rt; Qh::read(&words), Ok(head));
    assert_eq!(rt; head.write(), words);
    Ok(())
}

// A split interrupt endpoint in the middle of a transaction: every field of the figure has a value of its own.
#[test]
fn every_field_of_a_queue_head(rt: HostRuntime) {
    let words = [
        0x0001_2344,
        0xA2BC_DB93,
        0xCB96_3C81,
        0x0002_0040,
        0x0003_0061,
        0x0004_0096,
        0x9234_9E35,
        0xABCD_E123,
        0x1234_50A5,
        0x6789_AF6D,
        0xFEDC_B000,
        0x0000_1000,
    ];
    let queue_head = Qh {
        link: LinkBits {
            t: false,
            typ: 2,
            address: 0x0001_2340,
        },
        addr: 0x13,
        inactivate: true,
        ep: 0xB,
        eps: 1,
        dtc: true,
        head: true,
        max: 0x2BC,
        control: false,
        rl: 0xA,
        smask: 0x81,
        cmask: 0x3C,
        hub: 0x16,
        port: 0x17,
        mult: 3,
        current: 0x0002_0040,
        next: ShortLink {
            t: true,
            address: 0x0003_0060,
        },
        alternate: ShortLink {
            t: false,
            address: 0x0004_0080,
        },
        nak_cnt: 0xB,
        token: Token {
            ping: true,
            missed: true,
            babble: true,
            buffer_error: true,
            pid: 2,
            cerr: 3,
            c_page: 1,
            ioc: true,
            total: 0x1234,
            toggle: true,
            ..Token::blank()
        },
        offset: 0x123,
        page0: 0xABCDE,
        c_prog: 0xA5,
        page1: 0x12345,
        frame_tag: 0xD,
        s_bytes: 0x7B,
        page2: 0x6789A,
        page3: 0xFEDCB,
        page4: 1,
    };
    assert_eq!(rt; Qh::read(&words), Ok(queue_head));
    assert_eq!(rt; queue_head.write(), words);
}

#[test]
fn every_field_of_a_descriptor(rt: HostRuntime) {
    let words = [
        0x0000_2040,
        0x0000_0001,
        0x0200_4D80,
        0x0001_0A00,
        0x0002_0000,
        0x0003_0000,
        0x0004_0000,
        0xFFFF_F000,
    ];
    let descriptor = Qtd {
        next: ShortLink {
            t: false,
            address: 0x2040,
        },
        alternate: END,
        token: Token {
            active: true,
            pid: 1,
            cerr: 3,
            c_page: 4,
            total: 0x200,
            ..Token::blank()
        },
        offset: 0xA00,
        page0: 0x10,
        page1: 0x20,
        page2: 0x30,
        page3: 0x40,
        page4: 0xFFFFF,
    };
    assert_eq!(rt; Qtd::read(&words), Ok(descriptor));
    assert_eq!(rt; descriptor.write(), words);
    assert_eq!(rt; descriptor.token.to_word(), 0x0200_4D80);
    assert_eq!(rt; Token::from_word(0x0200_4D80), descriptor.token);
}

#[test]
fn first_reserved_bits_of_a_descriptor(rt: HostRuntime) {
    for (words, word, bit) in [
        ([1, 1, 0x300, 0, 0, 0, 0, 0], 2, 8),
        ([1, 1, 0x5001_0000, 0, 0, 0, 0, 0x800], 2, 16),
        ([1, 1, 0x5000, 0xFFF, 0, 0, 0, 0], 2, 12),
        ([0x1E, 1, 0, 0, 0, 0, 0, 0], 0, 1),
        ([1, 1, 0, 0, 0, 0, 0x0C00, 1], 6, 10),
    ] {
        assert_eq!(rt; Qtd::read(&words), Err(Bad { word, bit }));
    }
}

#[test]
fn first_reserved_bits_of_a_queue_head(rt: HostRuntime) {
    let mut words = [0; 12];
    words[1] = 0x3003;
    assert_eq!(rt; Qh::read(&words), Err(Bad { word: 1, bit: 12 }));
    words[0] = 0x18;
    assert_eq!(rt; Qh::read(&words), Err(Bad { word: 0, bit: 3 }));
    let tokens = [Token::bad_bit(0x300), Token::bad_bit(0x5000_4E7F)];
    assert_eq!(rt; tokens, [Some(8), None]);
    worked_layouts();
}
