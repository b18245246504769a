use link_words::{
    Link, LinkBits, QtdLink, ShortLink, address, bit, field, first_set, page_bad_bit, page_word,
    read, read_qtd, worked_words, write, write_qtd,
};

#[test]
fn link_words_of_an_image(rt: HostRuntime) {
    // The words that a schedule begins with, and links of the other types.
    for (word, link) in [
        (0x0000_0001, Link::End),
        (0x0000_1002, Link::Qh(0x1000)),
        (0x0000_1040, Link::Itd(0x1040)),
        (0x0010_0004, Link::Sitd(0x0010_0000)),
        (0x0000_1046, Link::Fstn(0x1040)),
    ] {
        assert_eq!(rt; read(word), link, "at {word}");
    }
    assert_eq!(rt; read(0x0000_1003), Link::End);
    let queues = [read_qtd(0x0000_2041), read_qtd(0x0000_2040)];
    assert_eq!(rt; queues, [QtdLink::End, QtdLink::To(0x2040)]);
    let words = [
        write(Link::End),
        write(Link::Qh(0x1000)),
        write(Link::Fstn(0xFFFF_FFE0)),
        write_qtd(QtdLink::End),
        write_qtd(QtdLink::To(0x2040)),
    ];
    assert_eq!(rt; words, [1, 0x1002, 0xFFFF_FFE6, 1, 0x2040]);
}

#[test]
fn fields_of_words(rt: HostRuntime) {
    let fields = LinkBits::from_word(0x0000_1003);
    assert_eq!(rt;
        fields,
        LinkBits {
            t: true,
            typ: 1,
            address: 0x1000
        }
    );
    assert_eq!(rt;
        LinkBits {
            t: true,
            typ: 1,
            address: 0x1000
        }
        .to_word(),
        0x1003
    );
    assert_eq!(rt;
        ShortLink::from_word(0x0000_1001),
        ShortLink {
            t: true,
            address: 0x1000
        }
    );
    assert_eq!(rt;
        ShortLink {
            t: true,
            address: 0x1000
        }
        .to_word(),
        0x1001
    );
    worked_words();
}

#[test]
fn bits_of_words(rt: HostRuntime) {
    let links = [
        LinkBits::bad_bit(0x0000_1006),
        LinkBits::bad_bit(0x0000_1016),
    ];
    assert_eq!(rt; links, [None, Some(4)]);
    let shorts = [
        ShortLink::bad_bit(0x0000_1016),
        ShortLink::bad_bit(0x0000_1001),
    ];
    assert_eq!(rt; shorts, [Some(1), None]);
    let firsts = [
        first_set(0x00F0_0000, 31, 12),
        first_set(0x00F0_0000, 19, 0),
        first_set(0x8000_0000, 31, 0),
    ];
    assert_eq!(rt; firsts, [Some(20), None, Some(31)]);
    assert_eq!(rt; [bit(0x0040_A000, 15), bit(0x0040_A000, 14)], [true, false]);
}

#[test]
fn parts_of_words(rt: HostRuntime) {
    let parts = [
        field(0x0040_A000, 26, 16),
        address(0x0000_2041),
        page_word(0x12345),
    ];
    assert_eq!(rt; parts, [0x40, 0x2040, 0x1234_5000]);
    let pages = [page_bad_bit(0x1234_5000), page_bad_bit(0x1234_5A00)];
    assert_eq!(rt; pages, [None, Some(9)]);
}
