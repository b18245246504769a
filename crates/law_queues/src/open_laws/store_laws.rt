//! The laws.
ghost use Rattle.std.specs.Prelude.{ℕ, Option};
ghost use Rattle.law_ring.specs.Bus.{Sender};
ghost use Rattle.law_queues.specs.open_laws.Opens.{OpenIsLinked, OpenStands, OpenPipes, OpenReports};

use usb_base::Wire;

/// The driver's next event is the store of the head's link, and the ring goes on with the new queue head in it.
pub fn open_is_linked()
    ensures { OpenIsLinked }
{}

/// All that is told of the driver's queues stays, and the new endpoint is one of them.
pub fn open_stands()
    ensures { OpenStands }
{}

/// A new IN endpoint's stream begins: both sides of its pipe agree. An OUT one asks none of the streams, and the others go on; nothing was reported of either.
pub fn an_open_begins_a_stream<W: Wire>()
    ensures pipes { (sender : W → ℕ → ℕ → Option Sender) → OpenPipes sender }
    ensures reports { OpenReports }
{}
