//! The bytes of a put in the buffers that the driver took for it (EHCI 1.0, 3.5.4 and 4.10): they stand there once the put was accepted, and stay until the
//! buffers are lent.
ghost use Rattle.law_world.specs.streams.put_laws.Held.{PutsAreFilled, PutIsHeld, HeldStays};

/// The qTDs of a put send all its bytes, each its piece.
pub fn puts_are_filled()
    ensures { PutsAreFilled }
{}

/// A put that was accepted has its bytes in its buffers, in their order.
pub fn put_is_held()
    ensures { PutIsHeld }
{}

/// The controller leaves them: the runs of the buffers aren't lent yet.
pub fn held_stays()
    ensures { HeldStays }
{}
