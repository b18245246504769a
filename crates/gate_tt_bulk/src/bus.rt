ghost use Rattle.std.specs.Prelude.{◌≡◌, true};

use arrayvec::ArrayVec;
use usb_base::{Ask, Packet, Pid, Reply, Wire};

/// What the bus below gives.
#[derive(Clone, Copy)]
pub enum Gives {
    Silence,
    /// Two bytes as a DATA0.
    Data(u8, u8),
    Hand(Pid),
}

/// A bus that gives the same at each ask, and counts the asks up to the last number.
#[derive(Drop)]
pub struct Below {
    pub gives: Gives,
    pub asked: u32,
}

impl Wire for Below {
    ghost begins = { λ w frindex allowed v. (allowed ≡ true) × (v ≡ w) };

    ghost transacts = { λ w ask out reply v. v.gives ≡ w.gives };

    fn begin(&mut self, _frindex: u16) -> bool {
        true
    }

    fn transact(&mut self, _ask: &Ask, _out: &[u8], reply: &mut Reply) {
        self.asked = self.asked.saturating_add(1);
        *reply = match self.gives {
            Gives::Silence => Reply::Silent,
            Gives::Hand(pid) => Reply::Hand(pid),
            Gives::Data(a, b) => {
                let mut bytes = ArrayVec::new();
                bytes.push(a);
                bytes.push(b);
                Reply::Bytes(Pid::Data0, Packet::of(bytes))
            }
        };
    }
}
