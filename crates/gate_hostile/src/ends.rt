ghost use Rattle.std.specs.Prelude.{None};

use usb_base::{Failed, MemSink, MemSource, Sink, Source};

/// A source that moves at most so many bytes a call, and counts the calls.
#[derive(Drop)]
pub struct SlowSource {
    pub source: MemSource,
    pub most: usize,
    pub calls: u32,
}

impl Source for SlowSource {
    ghost left = { λ _. None };

    ghost faults = { λ s. s.source.faults };

    fn read(&mut self, into: &mut [u8]) -> Result<usize, Failed> {
        self.calls = self.calls.saturating_add(1);
        let n = usize::min(into.len(), self.most);
        self.source.read(&mut into[..n])
    }
}

/// A sink that takes at most so many bytes a call, of which there is at least one, and counts the calls.
#[derive(Drop)]
pub struct SlowSink {
    pub sink: MemSink,
    pub most: usize,
    pub calls: u32,
}

impl Sink for SlowSink {
    ghost written = { λ _. None };

    ghost faults = { λ s. s.sink.faults };

    fn write(&mut self, piece: &[u8]) -> Result<usize, Failed> {
        self.calls = self.calls.saturating_add(1);
        let n = usize::min(piece.len(), usize::max(1, self.most));
        self.sink.write(&piece[..n])
    }
}
