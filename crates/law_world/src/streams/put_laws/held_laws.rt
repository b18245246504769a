//! The laws.
ghost use Rattle.law_world.specs.streams.put_laws.Rings.{WalkLeavesBuffers, EventLeavesBuffers, OutsAskNone};
ghost use Rattle.law_world.specs.streams.put_laws.HeldLaws.{NewDriverHoldsPuts, EventHoldsPuts, OpenHoldsPuts, GetHoldsPuts, PutHoldsPuts, CommandHoldsPuts, DriverHoldsPuts};

use usb_base::Wire;

/// A driver that was just built has no put.
pub fn new_driver_holds_puts()
    ensures { NewDriverHoldsPuts }
{}

/// An event of the walk, and so of the controller, leaves the buffers of a queue head that asks for no data; one that has only OUTs asks for none.
pub fn the_walk_leaves_what_it_sends<W: Wire>()
    ensures walk { WalkLeavesBuffers W.transacts }
    ensures event { EventLeavesBuffers W.begins W.transacts }
    ensures outs { OutsAskNone }
{}

/// Each event of the controller leaves the bytes of each put: those that are still to be lent, and those that are lent.
pub fn event_holds_puts<W: Wire>()
    ensures { EventHoldsPuts W.begins W.transacts }
{}

/// A command that is accepted leaves them, and the buffers of an accepted put hold the bytes of its command.
pub fn an_accepted_put_holds_its_bytes()
    ensures open { OpenHoldsPuts }
    ensures get { GetHoldsPuts }
    ensures put { PutHoldsPuts }
    ensures command { CommandHoldsPuts }
{}

/// Each event of the driver leaves them: its lends, its stores, its harvests, and where it gives the blocks of another transfer back.
pub fn driver_holds_puts()
    ensures { DriverHoldsPuts }
{}
