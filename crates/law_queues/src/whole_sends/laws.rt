//! The laws.
ghost use Rattle.law_queues.specs.whole_sends.Laws.{WalkKeepsWhole, ControlKeepsWhole, LinkedEndsWhole, StaleEndsWhole, StrangerEndsWhole, SparedIsWhole, ReturnedIsWhole, RenumberedIsWhole, AddedIsWhole, IdleStoreIsWhole, LastStoreIsWhole, BeginningIsWhole, ToldIsInOrder, NextIsInOrder, AllIsTold, ToldIsAhead, NextIsAhead, NothingPastHalted, WalkKeepsBuffers, IdleTakesNothing, TakenIsInOrder, TakenIsAhead};

use usb_base::Wire;

/// Each event of the walk, and of the controller, keeps it that the qTDs of an OUT endpoint are sent whole and in turn.
pub fn each_event_sends_whole<W: Wire>()
    ensures walk { WalkKeepsWhole W.transacts }
    ensures control { ControlKeepsWhole W.begins W.transacts }
{}

/// A transaction that isn't written back ends its qTD whole or halts also once a link was stored, or a halted queue head mended; a queue head that the
/// walk doesn't meet has none.
pub fn what_is_in_hand_ends_whole()
    ensures linked { LinkedEndsWhole }
    ensures stale { StaleEndsWhole }
    ensures stranger { StrangerEndsWhole }
{}

/// A step of a driver keeps it that leaves the overlay and what stays of the qTDs, numbers them otherwise, or adds new ones behind all others.
pub fn a_step_keeps_it_whole()
    ensures spared { SparedIsWhole }
    ensures returned { ReturnedIsWhole }
    ensures renumbered { RenumberedIsWhole }
    ensures added { AddedIsWhole }
{}

/// So does a qTD that is stored over the inactive one at the tail of its queue.
pub fn a_store_keeps_it_whole()
    ensures idle { IdleStoreIsWhole }
    ensures last { LastStoreIsWhole }
{}

/// A queue head of which nothing is published has nothing to send.
pub fn beginning_is_whole()
    ensures { BeginningIsWhole }
{}

/// What was sent begins the bytes of all published qTDs, and so it does with the packet that is sent next; once all are done it is all of them, and past
/// a halted one nothing is sent.
pub fn what_was_sent_begins_the_bytes()
    ensures told { ToldIsInOrder }
    ensures next { NextIsInOrder }
    ensures all { AllIsTold }
    ensures past { NothingPastHalted }
{}

/// While a qTD at the tail of the queue is being published, all of this is so of those that stand before it.
pub fn what_was_sent_stands_before_the_tail()
    ensures told { ToldIsAhead }
    ensures next { NextIsAhead }
{}

/// No event of the walk changes a byte of them.
pub fn walk_keeps_buffers<W: Wire>()
    ensures { WalkKeepsBuffers W.transacts }
{}

/// While a queue head is idle, its device takes nothing.
pub fn idle_takes_nothing<W: Wire>()
    ensures { IdleTakesNothing W.transacts }
{}

/// What the device took begins what was harvested and the bytes of all published qTDs; where the queue head is halted it does so if it did before.
pub fn what_was_taken_begins_the_bytes()
    ensures all { TakenIsInOrder }
    ensures ahead { TakenIsAhead }
{}
