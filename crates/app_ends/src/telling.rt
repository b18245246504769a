ghost use Rattle.std.specs.Prelude.{◌≡◌, ◌⊎◌, ℕ};
ghost use Rattle.app_ends.specs.Ends.{IsFault, IsTold, IsWriteFault};

use crate::status::Status;
use usb_base::{Sink, write_all};

/// Writes a text: `Ok`, or `WriteFault` where the sink failed, with a front part of the text written. Nothing is read.
pub fn tell<K: Sink>(text: &str, sink: &mut K) -> Status
    ensures told { IsTold result (K.written sink.old) (K.written sink.new) text.now }
    ensures read { (n : ℕ) → IsFault result n n }
    ensures fault { IsWriteFault result (K.faults sink.old) (K.faults sink.new) }
    ensures end { (result ≡ Status.Ok) ⊎ (result ≡ Status.WriteFault) }
{
    match write_all(sink, text.as_bytes()) {
        Ok(()) => Status::Ok,
        Err(_) => Status::WriteFault,
    }
}
