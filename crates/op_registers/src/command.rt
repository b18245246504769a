ghost use Rattle.std.specs.Prelude.{[], ◌∷◌, ⊤, codes};

use bitflags::{Flag, Flags, bitflag_items};

/// A set of the bits of USBCMD that say yes or no (EHCI 1.0 section 2.3.1).
#[derive(Clone, Copy, PartialEq, Eq, Debug)]
pub struct Command(u32);

bitflag_items! {
    impl Command: u32 {
        /// Run/Stop, bit 0: the controller runs.
        const RUN = 0x01;
        /// Host Controller Reset, bit 1. It is never held: a write of 1 resets, at once.
        const RESET = 0x02;
        /// Periodic Schedule Enable, bit 4.
        const PERIODIC_ENABLE = 0x10;
        /// Asynchronous Schedule Enable, bit 5.
        const ASYNC_ENABLE = 0x20;
        /// Interrupt on Async Advance Doorbell, bit 6: the driver waits for the controller to come past the head of the ring.
        const DOORBELL = 0x40;
    }
}

impl Command {
    /// The bits that are held: all but Host Controller Reset.
    pub const HELD: Command = Command(0x71);
}

impl Flags for Command {
    type Bits = u32;

    ghost exact = { ⊤ };

    ghost table = { (codes "RUN", 0x01) ∷ (codes "RESET", 0x02) ∷ (codes "PERIODIC_ENABLE", 0x10) ∷ (codes "ASYNC_ENABLE", 0x20) ∷ (codes "DOORBELL", 0x40) ∷ [] };

    ghost set_of = { λ c. c.0 };

    fn flags<'a>() -> &'a [Flag<Command>] {
        Command::FLAGS
    }

    fn bits(&self) -> u32 {
        self.0
    }

    fn from_bits_retain(bits: u32) -> Command {
        Command(bits)
    }
}
