use app_ends::{Status, StdSink, StdSource, tell};
use std::io;
use std::io::{Read, Write};
use std::test::Fail;
use usb_base::{MemSink, Sink, Source};

/// A reader and writer that fails, or takes nothing.
#[derive(Drop)]
struct Broken {
    fails: bool,
}

impl Read for Broken {
    fn read(&mut self, _buf: &mut [u8]) -> io::Result<usize> {
        Err(io::Error::from(io::ErrorKind::Other))
    }
}

impl Write for Broken {
    fn write(&mut self, _buf: &[u8]) -> io::Result<usize> {
        if self.fails {
            Err(io::Error::from(io::ErrorKind::Other))
        } else {
            Ok(0)
        }
    }

    fn flush(&mut self) -> io::Result<()> {
        Ok(())
    }
}

// The adapters count each fault, and a write that takes nothing is one.
#[test]
fn adapters_count(rt: HostRuntime) -> Result<(), Fail> {
    let mut source = StdSource::new(Broken { fails: true });
    let mut byte = [0u8; 1];
    let reads = [
        source.read(&mut byte).is_err(),
        source.read(&mut byte).is_err(),
    ];
    assert_eq!(rt; (reads, source.faults()), ([true; 2], 2));
    let mut none = StdSink::new(Broken { fails: false });
    let writes = [none.write(b"a").ok(), none.write(b"").ok()];
    assert_eq!(rt; (writes, none.faults()), ([None, Some(0)], 1));
    let mut broken = StdSink::new(Broken { fails: true });
    let write = broken.write(b"a").ok();
    assert_eq!(rt; (write, broken.faults()), (None, 1));
    Ok(())
}

// A text that finds no room is a write fault, with its front written.
#[test]
fn a_text_is_told(rt: HostRuntime) -> Result<(), Fail> {
    let mut sink = MemSink::build(rt.alloc(), 7, &[])?;
    let told = [tell("help\n", &mut sink), tell("help\n", &mut sink)];
    assert_eq!(rt; told, [Status::Ok, Status::WriteFault]);
    assert_eq!(rt;
        (sink.written(), sink.faults()),
        (b"help\nhe".as_slice(), 1)
    );
    Ok(())
}
