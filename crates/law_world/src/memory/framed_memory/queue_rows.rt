//! The laws of the rows.
ghost use Rattle.law_world.specs.memory.framed_memory.QueueRows.{CancelKeepsNow, ChainIsReady, LendOpenKeepsNow, LendTransferKeepsNow, OpenKeepsNow, PublishKeepsNow, ReleaseTransferKeepsNow, TransferKeepsNow, UnchainKeepsNow};
ghost use Rattle.law_world.specs.memory.framed_memory.Chained.{AcceptedChainStands, ChainBecomesReady, ChainComesFirst, ChainGoesOnNow, ChainKeepsNow, ChainLends, ChainLinksOn, ChainReadyStays, ChainStandsBeside, ChainStaysLent, ChainedHeadIsInRange, NewChainStands, OtherChainStands};

use usb_base::Wire;

/// Once an interrupt endpoint's open is accepted, its queue head, with its masks and the link to what it comes before, and the inactive qTD stand in runs that are all
/// that is to be lent (3.5, 3.6, 4.12.2).
pub fn chain_is_ready()
    ensures { ChainIsReady }
{}

/// The queue head of a new endpoint, and the inactive qTD at the end of its queue, are lent (3.5, 3.6, 4.8.1): all is framed with both, and nothing leads to them yet.
pub fn lend_open_keeps_now()
    ensures { LendOpenKeepsNow }
{}

/// Each word of a qTD that is published is stored where the inactive one at the end of a queue stood (3.5, 4.10.2): all is framed with the qTD as far as it is written, also
/// where the walk of the frames may meet its queue head.
pub fn publish_keeps_now()
    ensures { PublishKeepsNow }
{}

/// The qTDs and buffers of a transfer that was harvested are given back, where nothing that stays in its queue leads to them or needs them (3.5, 4.10): all is framed without
/// them, also where the walk of the frames may meet the queue head.
pub fn release_transfer_keeps_now()
    ensures { ReleaseTransferKeepsNow }
{}

/// The qTDs of a transfer, with their buffers, are lent before the first of them is published (3.5, 4.10): all is framed with them, also where the walk of the frames may meet
/// the queue head, and nothing leads to them yet.
pub fn lend_transfer_keeps_now()
    ensures { LendTransferKeepsNow }
{}

/// An open of an endpoint of the ring, or a get, put or request of any endpoint with a queue, is accepted (4.8, 4.10): what it takes is written in runs that the driver
/// alone may touch, and all is framed with the same structures.
pub fn accepted_opens_and_transfers_are_framed_now()
    ensures opening { OpenKeepsNow }
    ensures transfer { TransferKeepsNow }
{}

/// An endpoint of the ring, or a periodic one, is cancelled (4.8.2, 4.12.2): its link, or its members, are still to be unlinked, and all is framed with the same structures.
pub fn accepted_cancels_are_framed_now()
    ensures ring { CancelKeepsNow }
    ensures frames { UnchainKeepsNow }
{}

/// An open of an interrupt endpoint is accepted (3.6, 4.6, 4.12.2): its queue head and its inactive qTD are written in runs that the driver alone may touch, none of its frames
/// leads to it yet, and all is framed with the same structures.
pub fn chain_keeps_now()
    ensures { ChainKeepsNow }
{}

/// Once an interrupt endpoint's open is accepted, its queue head and its inactive qTD are to be lent, and stay so along the controller's events (3.6, 4.6, 4.12.2).
pub fn an_interrupt_open_is_to_be_lent()
    ensures ready { ChainBecomesReady }
    ensures stays { ChainReadyStays }
{}

/// Both are lent, and the queue head is being linked (3.6, 4.6): it has all that the first of its stores asks for, and each of the stores that isn't the
/// last keeps it.
pub fn an_interrupt_queue_comes_to_its_frames()
    ensures lent { ChainLends }
    ensures first { ChainComesFirst }
    ensures further { ChainLinksOn }
{}

/// Each event of the controller keeps it too: before the first store neither walk meets the queue head.
pub fn chain_stays_lent<W: Wire>()
    ensures { ChainStaysLent W.begins W.transacts }
{}

/// An unfinished open of an interrupt endpoint is as it was accepted, or as it was lent, at each moment of any driver (3.6, 4.6, 4.12.2): of one that was just built, of each
/// accepted command where the fields of the queue head are in their ranges, after each event of the open itself, by which all is framed, and after any
/// other.
pub fn an_interrupt_open_stands()
    ensures built { NewChainStands }
    ensures accepted { AcceptedChainStands }
    ensures range { ChainedHeadIsInRange }
    ensures goes_on { ChainGoesOnNow }
    ensures other { OtherChainStands }
{}

/// So it is after each event of the controller.
pub fn chain_stands_beside<W: Wire>()
    ensures { ChainStandsBeside W.begins W.transacts }
{}
