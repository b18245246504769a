ghost use Rattle.std.specs.Prelude.{[], ◌∷◌, ⊤, codes};

use bitflags::{Flag, Flags, bitflag_items};

/// A set of the bits of USBSTS (EHCI 1.0 section 2.3.2).
#[derive(Clone, Copy, PartialEq, Eq, Debug)]
pub struct Status(u32);

bitflag_items! {
    impl Status: u32 {
        /// USB Interrupt, bit 0: a transfer part with IOC ended, or a packet was short.
        const INTERRUPT = 0x0001;
        /// USB Error Interrupt, bit 1: a transaction ended in an error.
        const ERROR = 0x0002;
        /// Port Change Detect, bit 2.
        const PORT_CHANGE = 0x0004;
        /// Frame List Rollover, bit 3: the frame number came past the end of the frame list.
        const ROLLOVER = 0x0008;
        /// Host System Error, bit 4: the controller met something that it can't go on from.
        const HOST_SYSTEM_ERROR = 0x0010;
        /// Interrupt on Async Advance, bit 5: the controller came past the head of the ring with the doorbell set.
        const ASYNC_ADVANCE = 0x0020;
        /// HCHalted, bit 12: Run is 0.
        const HALTED = 0x1000;
        /// Reclamation, bit 13: the ring had work since its head was read.
        const RECLAMATION = 0x2000;
        /// Periodic Schedule Status, bit 14: the periodic schedule is running.
        const PERIODIC_STATUS = 0x4000;
        /// Asynchronous Schedule Status, bit 15: the asynchronous schedule is running.
        const ASYNC_STATUS = 0x8000;
    }
}

impl Status {
    /// Bits 5:0, which stand until the driver clears them, each with its enable in USBINTR.
    pub const INTERRUPTS: Status = Status(0x003f);

    /// The bits that are raised: bits 5:0, and Reclamation. The other three follow USBCMD.
    pub const RAISED: Status = Status(0x203f);
}

impl Flags for Status {
    type Bits = u32;

    ghost exact = { ⊤ };

    ghost table = { (codes "INTERRUPT", 0x0001) ∷ (codes "ERROR", 0x0002) ∷ (codes "PORT_CHANGE", 0x0004) ∷ (codes "ROLLOVER", 0x0008) ∷ (codes "HOST_SYSTEM_ERROR", 0x0010)
        ∷ (codes "ASYNC_ADVANCE", 0x0020) ∷ (codes "HALTED", 0x1000) ∷ (codes "RECLAMATION", 0x2000) ∷ (codes "PERIODIC_STATUS", 0x4000) ∷ (codes "ASYNC_STATUS", 0x8000) ∷ [] };

    ghost set_of = { λ s. s.0 };

    fn flags<'a>() -> &'a [Flag<Status>] {
        Status::FLAGS
    }

    fn bits(&self) -> u32 {
        self.0
    }

    fn from_bits_retain(bits: u32) -> Status {
        Status(bits)
    }
}
