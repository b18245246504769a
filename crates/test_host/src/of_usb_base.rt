use std::test::Fail;
use usb_base::{MemSink, MemSource, Sink, Source};

// Of four writes the chosen one fails, and the last finds no room; what the others move is there.
#[test]
fn chosen_writes_fail(rt: HostRuntime) -> Result<(), Fail> {
    let mut sink = MemSink::build(rt.alloc(), 3, &[1])?;
    let rows: [(&[u8], Option<usize>); 4] = [
        (b"ab", Some(2)),
        (b"cd", None),
        (b"cd", Some(1)),
        (b"d", None),
    ];
    for (bytes, moved) in rows {
        assert_eq!(rt; sink.write(bytes).ok(), moved);
    }
    assert_eq!(rt; (sink.written(), sink.faults()), (b"abc".as_slice(), 2));
    Ok(())
}

// The first of four reads fails, and the others move what is left.
#[test]
fn chosen_reads_fail(rt: HostRuntime) -> Result<(), Fail> {
    let mut source = MemSource::build(rt.alloc(), b"abc", &[0])?;
    let mut two = [0u8; 2];
    let rows: [(Option<usize>, [u8; 2], &[u8]); 4] = [
        (None, [0, 0], b"abc"),
        (Some(2), *b"ab", b"c"),
        (Some(1), *b"cb", b""),
        (Some(0), *b"cb", b""),
    ];
    for (moved, read, left) in rows {
        assert_eq!(rt; source.read(&mut two).ok(), moved);
        assert_eq!(rt; (two, source.left()), (read, left));
    }
    assert_eq!(rt; source.faults(), 1);
    Ok(())
}
