ghost use Rattle.std.specs.Prelude.{◌≡◌, ℕ, ◌+◌, ◌*◌, ◌/◌, ◌%◌, ◌<◌, ◌&&◌, nat_eq};

use std::marker::Model;
use usb_base::DevAddr;

/// A translator: one of 16 for each address of a hub, the first where it serves all ports of the hub, else that of the port that it
/// serves (USB 2.0, 11.14). A contract sees its number.
#[derive(Clone, Copy, Debug, PartialEq, Eq)]
pub(crate) struct Translator {
    number: u16,
}

impl Model for Translator {
    ghost Value = { ℕ };

    ghost view = { λ t. t.number };

    ghost invariant = { λ t. t.number < 2048 };

    ghost inverse = { λ n. record { number = n } };
}

impl Translator {
    /// The translator of a hub by the port that it serves alone, 0 where it serves all.
    pub(crate) fn new(hub: DevAddr, port: u8) -> Translator
        requires { port < 16 }
        ensures { result ≡ 16 * hub + port }
    {
        Translator {
            number: 16 * hub.get() as u16 + port as u16,
        }
    }

    /// Whether it is that of this hub and this port.
    pub(crate) fn is(&self, hub: DevAddr, port: u8) -> bool
        ensures { result ≡ (nat_eq hub (self.now / 16) && nat_eq port (self.now % 16)) }
    {
        hub.get() as u16 == self.number / 16 && port as u16 == self.number % 16
    }

    /// Its number, below 2,048.
    pub(crate) fn get(&self) -> u16
        ensures same { result ≡ self.now }
        ensures bound { self.now < 2048 }
    {
        self.number
    }
}
