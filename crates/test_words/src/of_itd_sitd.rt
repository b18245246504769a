use itd_sitd::{Bad, Itd, ItdSlot, Sitd, worked_layouts};
use link_words::{LinkBits, ShortLink};

const IDLE: ItdSlot = ItdSlot {
    offset: 0,
    pg: 0,
    ioc: false,
    length: 0,
    xact_err: false,
    babble: false,
    buffer_error: false,
    active: false,
};

// Each field of the figures has a value of its own.
#[test]
fn every_field_of_an_itd(rt: HostRuntime) {
    let words = [
        0x0001_2340,
        0x8400_A123,
        0,
        0x7FFF_6FFF,
        0,
        0,
        0,
        0,
        0x0001_0000,
        0x1234_597F,
        0x6789_AC00,
        0xBCDE_F003,
        0x0001_0000,
        0x0002_0000,
        0xFFFF_F000,
        0,
    ];
    let first = ItdSlot {
        offset: 0x123,
        pg: 2,
        ioc: true,
        length: 0x400,
        active: true,
        ..IDLE
    };
    let third = ItdSlot {
        offset: 0xFFF,
        pg: 6,
        ioc: false,
        length: 0xFFF,
        xact_err: true,
        babble: true,
        buffer_error: true,
        active: false,
    };
    let last = ItdSlot { length: 1, ..IDLE };
    let descriptor = Itd {
        link: LinkBits {
            t: false,
            typ: 0,
            address: 0x0001_2340,
        },
        slots: [first, IDLE, third, IDLE, IDLE, IDLE, IDLE, last],
        addr: 0x7F,
        ep: 9,
        page0: 0x12345,
        max: 0x400,
        dir_in: true,
        page1: 0x6789A,
        multi: 3,
        page2: 0xBCDEF,
        page3: 0x10,
        page4: 0x20,
        page5: 0xFFFFF,
        page6: 0,
    };
    assert_eq!(rt; Itd::read(&words), Ok(descriptor));
    assert_eq!(rt; descriptor.write(), words);
    assert_eq!(rt; first.to_word(), 0x8400_A123);
    assert_eq!(rt; ItdSlot::from_word(0x7FFF_6FFF), third);
    assert_eq!(rt; ItdSlot::bad_bit(0x0000_7000), Some(12));
}

#[test]
fn every_field_of_a_sitd(rt: HostRuntime) {
    let words = [
        0x0000_2002,
        0x8513_022A,
        0x0000_1C01,
        0xC3A5_04AA,
        0xABCD_EF01,
        0x1234_5015,
        0x0004_0021,
    ];
    let descriptor = Sitd {
        link: LinkBits {
            t: false,
            typ: 1,
            address: 0x2000,
        },
        addr: 0x2A,
        ep: 2,
        hub: 0x13,
        port: 5,
        dir_in: true,
        smask: 1,
        cmask: 0x1C,
        split_state: true,
        missed: false,
        xact_err: true,
        babble: false,
        buffer_error: true,
        err: false,
        active: true,
        c_prog: 4,
        total: 0x3A5,
        page_select: true,
        ioc: true,
        offset: 0xF01,
        page0: 0xABCDE,
        t_count: 5,
        tp: 2,
        page1: 0x12345,
        back: ShortLink {
            t: true,
            address: 0x0004_0020,
        },
    };
    assert_eq!(rt; Sitd::read(&words), Ok(descriptor));
    assert_eq!(rt; descriptor.write(), words);
}

#[test]
fn first_reserved_bits(rt: HostRuntime) {
    for (word, value, bit) in [
        (5, 0x0000_7000, 12),
        (9, 0x0000_0080, 7),
        (10, 0x0000_0401, 0),
        (11, 0x0000_0000, 0),
        (11, 0x0000_0801, 11),
        (15, 0x0000_0300, 8),
    ] {
        assert!(rt; word < 16);
        let mut words = [0; 16];
        words[11] = 1;
        words[word] = value;
        assert_eq!(rt;
            Itd::read(&words),
            Err(Bad {
                word: word as u8,
                bit
            }),
            "at {word}"
        );
    }
    for (word, value, bit) in [
        (0, 0x0000_0018, 3),
        (1, 0x0080_1080, 7),
        (1, 0x0080_1000, 12),
        (1, 0x0080_0000, 23),
        (2, 0x0003_0000, 16),
        (3, 0x0400_0001, 0),
        (3, 0x2400_0000, 26),
        (5, 0x0000_0C20, 5),
        (6, 0x0000_0010, 4),
    ] {
        assert!(rt; word < 7);
        let mut words = [0; 7];
        words[word] = value;
        assert_eq!(rt;
            Sitd::read(&words),
            Err(Bad {
                word: word as u8,
                bit
            }),
            "at {word}"
        );
    }
    worked_layouts();
}
