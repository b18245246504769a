ghost use Rattle.std.specs.Prelude.{◌≡◌, ◌+◌, ◌-◌, ◌^◌, take, min, length, true};
ghost use Rattle.usb_base.specs.declared.packets.Reply.{Reply as Answer};
ghost use Rattle.bench_controller.specs.Answers.{answer, moved_by};

use usb_base::{Ask, Pid, Reply, Wire};

/// A bus on which each IN is answered with the same number of bytes, or with as many of them as the host can take, and with the PID that
/// it expects; all other tokens are acknowledged.
#[derive(Drop)]
pub(crate) struct SteadyWire {
    payload: [u8; 512],
    size: u16,
    moved: u64,
}

impl SteadyWire {
    /// A bus whose answers have this many bytes, at most 512.
    pub(crate) fn new(size: u16) -> SteadyWire
        ensures size { result.size ≡ size }
        ensures none { result.moved ≡ 0 }
    {
        SteadyWire {
            payload: [0x5a; 512],
            size,
            moved: 0,
        }
    }

    /// How many bytes were moved, either way.
    pub(crate) fn moved(&self) -> u64
        ensures { result ≡ self.now.moved }
    {
        self.moved
    }
}

impl Wire for SteadyWire {
    ghost begins = { λ w frindex allowed v. (allowed ≡ true) × (v ≡ w) };

    ghost transacts = { λ w ask out reply v. (reply ≡ answer w.payload w.size ask) × (v ≡ record w { moved = min (w.moved + moved_by w.size ask (length out)) (2 ^ 64 - 1) }) };

    fn begin(&mut self, _frindex: u16) -> bool {
        true
    }

    // Not inlined, as the wire of a whole world isn't.
    #[inline(never)]
    fn transact(&mut self, ask: &Ask, out: &[u8], reply: &mut Reply) {
        let Pid::In = ask.pid else {
            self.moved = self.moved.saturating_add(out.len() as u64);
            reply.set_hand(Pid::Ack);
            return;
        };
        let bytes = u16::min(512, u16::min(self.size, ask.limit));
        self.moved = self.moved.saturating_add(bytes as u64);
        reply.set_bytes(ask.toggle, &self.payload[..bytes as usize]);
    }
}
