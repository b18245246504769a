ghost use Rattle.std.specs.Prelude.{◌≡◌};
ghost use Rattle.usb_base.specs.declared.packets.Reply.{Reply as Answer};

use usb_base::{Ask, Reply, Wire};

/// A silent wire, that allows the bus or doesn't.
#[derive(Drop)]
pub(crate) struct SilentWire {
    pub(crate) allows: bool,
    pub(crate) asked: u32,
}

impl Wire for SilentWire {
    ghost begins = { λ w frindex allowed v. (allowed ≡ w.allows) × (v ≡ w) };

    ghost transacts = { λ w ask out reply v. (reply ≡ Answer.Silent) × (v.allows ≡ w.allows) };

    fn begin(&mut self, _frindex: u16) -> bool {
        self.allows
    }

    fn transact(&mut self, _ask: &Ask, _out: &[u8], reply: &mut Reply) {
        self.asked = self.asked.saturating_add(1);
        *reply = Reply::Silent;
    }
}
