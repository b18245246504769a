//! The laws.
ghost use Rattle.std.specs.Prelude.{ℕ, Option};
ghost use Rattle.law_ring.specs.OutBus.{Taker};
ghost use Rattle.law_world.specs.streams.put_laws.OwedLaws.{NewDriverOwes, AlikeOwes, MetOwes, OpenOwes, AskedOwes, CommandOwes, ReturnedOwes, DriverOwes, HarvestOwes, WaitOwes};
ghost use Rattle.law_world.specs.streams.put_laws.Buffers.{BuffersAreRest, BuffersBeforeLend, BuffersAround};
ghost use Rattle.law_world.specs.streams.put_laws.OwedTaken.{TakenBeginsPuts, EventKeepsTaken, DriverKeepsTaken, CommandKeepsTaken, EventKeepsStopped, SparedStayStopped, AlikeStayStopped, HarvestStops};

use usb_base::Wire;

/// A driver that was just built owes nothing.
pub fn new_driver_owes()
    ensures { NewDriverOwes }
{}

/// What is reported of an OUT endpoint and what is still to be sent of it stay its puts where no endpoint, transfer or note changes, as after an event of the
/// controller; and so where an open is finished, a command is accepted, or a reported transfer is given back.
pub fn what_is_owed_stays()
    ensures alike { AlikeOwes }
    ensures met { MetOwes }
    ensures opened { OpenOwes }
    ensures asked { AskedOwes }
    ensures command { CommandOwes }
    ensures returned { ReturnedOwes }
{}

/// Each row of the driver but a harvest leaves it so.
pub fn driver_owes()
    ensures { DriverOwes }
{}

/// A harvest reports the bytes of the qTD that it reads, of which nothing is still to be sent then; one that halted ends its endpoint.
pub fn a_harvest_pays_what_it_reports()
    ensures done { HarvestOwes }
    ensures active { WaitOwes }
{}

/// What is still to be sent stands in the buffers of the qTDs that are out, and of the one that is being published.
pub fn what_is_owed_stands_in_buffers()
    ensures all { BuffersAreRest }
    ensures before { BuffersBeforeLend }
    ensures around { BuffersAround }
{}

/// What the device of an OUT endpoint took begins its puts, if it did so when the queue head halted.
pub fn taken_begins_puts()
    ensures { TakenBeginsPuts }
{}

/// So it stays with each event of the controller.
pub fn each_event_takes_what_was_put<W: Wire>()
    ensures taken { EventKeepsTaken W.begins W.transacts }
    ensures stopped { EventKeepsStopped W.begins W.transacts }
{}

/// With each row of the driver, and each accepted command.
pub fn the_driver_leaves_what_was_taken<W: Wire>()
    ensures row { (taker : W → ℕ → ℕ → Option Taker) → DriverKeepsTaken taker }
    ensures command { (taker : W → ℕ → ℕ → Option Taker) → CommandKeepsTaken taker }
{}

/// The queue head of an OUT endpoint that has ended is halted, and stays so.
pub fn an_ended_endpoint_is_halted()
    ensures spared { SparedStayStopped }
    ensures alike { AlikeStayStopped }
    ensures harvest { HarvestStops }
{}
