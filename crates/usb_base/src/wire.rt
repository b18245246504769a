ghost use Rattle.std.specs.Prelude.{ℕ, Bool, List, length, ◌≤◌};
ghost use Rattle.usb_base.specs.declared.packets.Ask.{Ask as Asked};
ghost use Rattle.usb_base.specs.declared.packets.Reply.{Reply as Answer};

use crate::packets::{Ask, Reply};

/// The bus below a controller or a translator.
///
/// A wire means two relations: what `begin` may answer and leave, and what `transact` may answer and leave. The asker's
/// handshake is the wire's part: it sends ACK for the data of a plain IN exactly where `acknowledges` of
/// specs/Acknowledgement.antt says so, which is `Ask::acknowledges` (USB 2.0, 8.5 and 8.6). No handshake follows data of
/// an isochronous transaction or of a complete-split.
pub trait Wire {
    // The wire before, the frame index, whether the bus may be used, the wire after.
    ghost begins: { Self → ℕ → Bool → Self → Type 0 };

    // The wire before, what was asked with the bytes sent, the answer, the wire after.
    ghost transacts: { Self → Asked → List ℕ → Answer → Self → Type 0 };

    /// Starts the microframe with this frame index (0 to 16,383) and answers whether the bus may be used in it.
    fn begin(&mut self, frindex: u16) -> bool
        ensures { begins self.old frindex result self.new };

    /// Makes one transaction that sends `out` (at most 1,024 bytes, empty for an IN), and leaves what the asker heard in `reply`, so that
    /// a packet's bytes are written where they are wanted. What stood in `reply` tells nothing.
    fn transact(&mut self, ask: &Ask, out: &[u8], reply: &mut Reply)
        requires { length out.now ≤ 1024 }
        ensures { transacts self.old ask.now out.now reply.new self.new };
}

/// What the asker hears in one transaction, as a value of its own.
pub fn reply_to<W: Wire>(wire: &mut W, ask: &Ask, out: &[u8]) -> Reply
    requires { length out.now ≤ 1024 }
    ensures { W.transacts wire.old ask.now out.now result wire.new }
{
    let mut reply = Reply::Silent;
    wire.transact(ask, out, &mut reply);
    reply
}
