ghost use Rattle.std.specs.Prelude.{◌≡◌, ℕ, ◌≤◌, ◌+◌, ◌++◌, List, [], length, OnOk, OnErr};
ghost use Rattle.arrayvec.specs.ArrayVec.{array_vec_len};
ghost use Rattle.usb_base.specs.Outside.{AppendsPrefix, Prints, one_more};
ghost use Rattle.image_codec.specs.Printing.{Passes, PrintsOn};

use arrayvec::ArrayVec;
use std::marker::Model;
use usb_base::{Failed, Sink, write_all};

/// The bytes of one write: they stand here until the next piece doesn't fit.
#[derive(Drop)]
pub struct Page {
    bytes: ArrayVec<u8, 4096>,
}

impl Model for Page {
    ghost Value = { List ℕ };

    ghost view = { λ p. p.bytes.items };
}

impl Page {
    /// A page that holds nothing.
    pub fn new() -> Page
        ensures { result ≡ [] }
    {
        Page {
            bytes: ArrayVec::new(),
        }
    }

    /// Hands on a piece of at most 4,096 bytes. `Failed` comes only where the sink's count of faults rose.
    pub fn put<K: Sink>(&mut self, sink: &mut K, piece: &[u8]) -> Result<(), Failed>
        requires { length piece.now ≤ 4096 }
        ensures { PrintsOn K.written K.faults sink.old sink.new self.old self.new result piece.now }
    {
        self.make_room(sink, piece.len())?;
        self.append(piece);
        Ok(())
    }

    /// Writes what the page holds.
    pub fn flush<K: Sink>(&mut self, sink: &mut K) -> Result<(), Failed>
        ensures empty { OnOk result (self.new ≡ []) }
        ensures printed { Prints K.written K.faults sink.old sink.new result self.old }
    {
        write_all(sink, self.bytes.as_slice())?;
        self.bytes.clear();
        Ok(())
    }

    fn room(&self) -> usize
        ensures { result + length self.now ≡ 4096 }
    {
        self.bytes.remaining_capacity()
    }

    fn append(&mut self, piece: &[u8])
        requires { length self.old + length piece.now ≤ 4096 }
        ensures { self.new ≡ self.old ++ piece.now }
    {
        let _added = self.bytes.try_extend_from_slice(piece);
    }

    fn make_room<K: Sink>(&mut self, sink: &mut K, n: usize) -> Result<(), Failed>
        requires { n ≤ 4096 }
        ensures room { OnOk result (length self.new + n ≤ 4096) }
        ensures ok { OnOk result (Passes (K.written sink.old) (K.written sink.new) self.old self.new []) }
        ensures err { OnErr result (AppendsPrefix (K.written sink.old) (K.written sink.new) self.old) }
        ensures stays { OnOk result (K.faults sink.new ≡ K.faults sink.old) }
        ensures rises { OnErr result (K.faults sink.new ≡ one_more (K.faults sink.old)) }
        ensures counted { K.faults sink.old ≤ K.faults sink.new }
    {
        if n <= self.room() {
            return Ok(());
        }
        self.flush(sink)?;
        Ok(())
    }
}
