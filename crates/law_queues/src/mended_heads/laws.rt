//! The laws.
ghost use Rattle.std.specs.Prelude.{ℕ, Option};
ghost use Rattle.law_ring.specs.Bus.{Sender};
ghost use Rattle.law_queues.specs.mended_heads.Queues.{MendLeavesPipes, MendLeavesAccounts, MendSparesRest, MendAddsNone, MendLeavesFront, MendLeavesTail, MendLeavesPassed, MendLeavesWithin, MendLeavesRising, MendLeavesMet, MendLeavesEnds, MendLeavesFed, MendLeavesLast, MendLeavesOut};
ghost use Rattle.law_queues.specs.mended_heads.Streams.{MendLeavesOutPipe, MendLeavesReports};
ghost use Rattle.law_queues.specs.mended_heads.Standing.{NewDriverOwesNone, WalkKeepsMends, HaltedWordsStay, StoreKeepsHalted, LinkKeepsHalted, LendKeepsHalted, ReleaseKeepsHalted, CommandsKeepMends, RowsKeepMends};
ghost use Rattle.law_queues.specs.mended_heads.Stalling.{StallIsHalted, HaltStopsQueue, HarvestKeepsMends};
ghost use Rattle.law_queues.specs.mended_heads.Mended.{MendIsDue, MendRow, MendKeepsMends, LastMendEnds, MendLeavesRing, MendSparesHeads, MendSparesEndpoints, MendSparesElements, MendSparesHand, MendLeavesHalts};

use usb_base::Wire;

/// A driver that was just built owes no store.
pub fn new_driver_owes_none()
    ensures { NewDriverOwesNone }
{}

/// What a stalled endpoint is owed stands after each event of the controller: a queue head that is halted keeps its words.
pub fn the_controller_leaves_what_is_owed<W: Wire>()
    ensures stands { WalkKeepsMends W.transacts }
    ensures words { HaltedWordsStay W.transacts }
{}

/// It stands after each accepted command, and after each row of the driver that is no such store and no harvest, where the queues that wait are as they were.
pub fn commands_and_rows_leave_what_is_owed()
    ensures commands { CommandsKeepMends }
    ensures rows { RowsKeepMends }
{}

/// So they are after a store of a qTD or of a link, a lend, and a return.
pub fn rows_leave_the_queues_that_wait()
    ensures store { StoreKeepsHalted }
    ensures link { LinkKeepsHalted }
    ensures lend { LendKeepsHalted }
    ensures release { ReleaseKeepsHalted }
{}

/// A harvest finds nothing of a queue that waits. One that finds a STALL found a qTD that was halted, with its queue head; the endpoint is owed its stores then.
pub fn a_stall_is_owed_three_stores()
    ensures halted { StallIsHalted }
    ensures stops { HaltStopsQueue }
    ensures harvest { HarvestKeepsMends }
{}

/// The next store that is owed is that of the first queue that waits, whatever the controller and commands did meanwhile; those that are left stand after it.
pub fn a_store_is_due()
    ensures due { MendIsDue }
    ensures row { MendRow }
    ensures left { MendKeepsMends }
{}

/// The walk goes on over the ring. After the last store the queue head is idle, and leads to where its queue goes on.
pub fn a_queue_head_is_mended()
    ensures ring { MendLeavesRing }
    ensures last { LastMendEnds }
{}

/// All other queue heads stay, and so do each queue head's endpoint, each qTD and its buffer, and what stops at a halted qTD; what is in hand tells the same.
pub fn it_spares_all_else()
    ensures heads { MendSparesHeads }
    ensures endpoints { MendSparesEndpoints }
    ensures elements { MendSparesElements }
    ensures hand { MendSparesHand }
    ensures halts { MendLeavesHalts }
{}

/// Both sides of the pipes of bulk endpoints agree as before, and the reports stay right; of each other queue head what was moved of its published qTDs stays, and so
/// does its overlay.
pub fn it_leaves_the_streams<W: Wire>()
    ensures pipes { (sender : W → ℕ → ℕ → Option Sender) → MendLeavesPipes sender }
    ensures accounts { MendLeavesAccounts }
    ensures rest { MendSparesRest }
    ensures elements { MendAddsNone }
    ensures out { MendLeavesOutPipe }
    ensures reports { MendLeavesReports }
{}

/// Fronts and tails stay; those of the queue itself too, where it goes on between them.
pub fn it_leaves_fronts_and_tails()
    ensures front { MendLeavesFront }
    ensures tail { MendLeavesTail }
    ensures passed { MendLeavesPassed }
    ensures within { MendLeavesWithin }
    ensures rising { MendLeavesRising }
{}

/// What is told of the driver's queues is so still: who is met, which have streams, the qTDs and buffers of their transfers, their order, and what is out.
pub fn it_leaves_the_queues()
    ensures met { MendLeavesMet }
    ensures streams { MendLeavesEnds }
    ensures fed { MendLeavesFed }
    ensures last { MendLeavesLast }
    ensures outs { MendLeavesOut }
{}
