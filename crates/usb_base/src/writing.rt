ghost use Rattle.usb_base.specs.Outside.{Prints};

use crate::outside::{Failed, Sink};

/// Writes all of `bytes`, and no write failed. `Failed` comes of the first write that fails: one fault more is counted,
/// and a front part of `bytes` is written.
pub fn write_all<K: Sink>(sink: &mut K, bytes: &[u8]) -> Result<(), Failed>
    ensures { Prints K.written K.faults sink.old sink.new result bytes.now }
{
    let mut at = 0;
    while at < bytes.len() {
        let (_, rest) = bytes.split_at(at);
        at += sink.write(rest)?;
    }
    Ok(())
}
