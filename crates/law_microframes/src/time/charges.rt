//! What an event of the walk of a frame's chain costs at high speed, told by the copy in hand (EHCI 1.0, 4.7, 4.10 and 4.10.3; USB 2.0, 5.9 and 5.11.3), so that charges can be summed
//! along a run in which memory is written between the events.
//!
//! The module has no code of its own: each function is a law over the definitions of `periodic_walk` and of `law_budgets`, and its body is empty.

pub mod worked;

ghost use Rattle.law_microframes.specs.time.Charges.{EventsArePriced, EventsAreCharged, LeadsAreCharged, ChainsAreFree, ChainsCostNothing, HeadFetchesBeginCharges, DescriptorFetchesBeginCharges, ChargesAreSummed, ChargesAreBounded, ChargesArePlaced, EnoughTimeSkipsNothing};
ghost use Rattle.law_microframes.specs.time.ChargeLoads.{HeldArePaid, PaidIsWithinLoad, PaidLeavesAFifth, TransactionsAreShort, PaidVisitsAreInTime};

use usb_base::Wire;

/// While the queue head of a placed high-speed interrupt endpoint is in hand, or a descriptor of such an isochronous endpoint, an event asks nothing and costs nothing, or makes one
/// transaction, in a microframe of the S-mask, and costs at most one of the largest packet. The visit goes on, with one transaction more in the one case, or is over.
pub fn events_are_priced()
    ensures { EventsArePriced }
{}

/// So it is of what such an event leaves, whatever the bus replies.
pub fn events_are_charged()
    ensures { EventsAreCharged }
{}

/// So it is over each wire.
pub fn leads_are_charged<W: Wire>()
    ensures { LeadsAreCharged W.transacts }
{}

/// With nothing in hand an event asks nothing and costs nothing.
pub fn chains_are_free()
    ensures { ChainsAreFree }
{}

/// So it is over each wire.
pub fn chains_cost_nothing<W: Wire>()
    ensures { ChainsCostNothing W.transacts }
{}

/// A fetch of the queue head of such an endpoint begins a visit, of which nothing is paid.
pub fn head_fetches_begin_charges()
    ensures { HeadFetchesBeginCharges }
{}

/// So does one of a descriptor.
pub fn descriptor_fetches_begin_charges()
    ensures { DescriptorFetchesBeginCharges }
{}

/// Each event of the visit adds its charge to what was paid, which stays within what the transactions made may cost; the last one adds nothing.
pub fn charges_are_summed()
    ensures { ChargesAreSummed }
{}

/// So a visit costs at most all transactions that the endpoint may have in a microframe.
pub fn charges_are_bounded()
    ensures { ChargesAreBounded }
{}

/// In a frame of its placement it costs at most those that it may have in this microframe.
pub fn charges_are_placed()
    ensures { ChargesArePlaced }
{}

/// Where there is time left for one transaction of the largest packet, none is skipped for want of it.
pub fn enough_time_skips_nothing()
    ensures { EnoughTimeSkipsNothing }
{}

/// At each of its events a visit in a frame of the placement has cost no more than the endpoint may have in this microframe ..
pub fn held_are_paid()
    ensures { HeldArePaid }
{}

/// .. so visits of one microframe to different placed endpoints cost together at most its load.
pub fn paid_is_within_load()
    ensures { PaidIsWithinLoad }
{}

/// Where what is placed fits they leave a fifth of the microframe, 25,000,000 picoseconds ..
pub fn paid_leaves_a_fifth()
    ensures { PaidLeavesAFifth }
{}

/// .. and no transaction of a packet of up to 1,024 bytes costs more than 21,000,000, ..
pub fn transactions_are_short()
    ensures { TransactionsAreShort }
{}

/// .. so none of a visit is skipped for want of time, whatever was visited before it in the microframe.
pub fn paid_visits_are_in_time()
    ensures { PaidVisitsAreInTime }
{}
