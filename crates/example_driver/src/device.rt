ghost use Rattle.std.specs.Prelude.{◌≡◌, ◌∷◌, [], true};
ghost use Rattle.usb_base.specs.declared.packets.Reply.{Reply as Answer};
ghost use Rattle.usb_base.specs.declared.packets.Pid.{Pid as Name};

use usb_base::{Ask, Pid, Reply, Wire};

/// A bus on which one device answers each token with the same packet of five bytes.
#[derive(Drop)]
pub(crate) struct Greeter {
    pub(crate) asked: u32,
}

impl Wire for Greeter {
    ghost begins = { λ w frindex allowed v. (allowed ≡ true) × (v ≡ w) };

    ghost transacts = { λ w ask out reply v. reply ≡ Answer.Bytes Name.Data0 (104 ∷ 101 ∷ 108 ∷ 108 ∷ 111 ∷ []) };

    fn begin(&mut self, _frindex: u16) -> bool {
        true
    }

    fn transact(&mut self, _ask: &Ask, _out: &[u8], reply: &mut Reply) {
        self.asked = self.asked.saturating_add(1);
        reply.set_bytes(Pid::Data0, &[104, 101, 108, 108, 111]);
    }
}
