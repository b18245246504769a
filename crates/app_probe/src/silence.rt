ghost use Rattle.app_probe.specs.Silence.{may_be_used, is_silent};

use usb_base::{Ask, Reply, Wire};

/// A wire on which everything is silent: the bus may be used in each microframe, and nothing answers on it.
#[derive(Clone, Copy, Debug, PartialEq, Eq)]
pub struct Silence;

impl Wire for Silence {
    ghost begins = { may_be_used };

    ghost transacts = { is_silent };

    fn begin(&mut self, _frindex: u16) -> bool {
        true
    }

    fn transact(&mut self, _ask: &Ask, _out: &[u8], reply: &mut Reply) {
        *reply = Reply::Silent;
    }
}
