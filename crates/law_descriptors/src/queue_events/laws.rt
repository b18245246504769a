//! The laws.
ghost use Rattle.law_descriptors.specs.queue_events.Events.{BothKeepsStructures, BothKeepsFed, BothKeepsLast, BothKeepsLinks, BothKeepsFronts, BothKeepsReaches, BothKeepsHalts, BothLeavesHalted, BothKeepsMends, BothKeepsParts};
ghost use Rattle.law_descriptors.specs.queue_events.Streams.{BothStreams, BothAdds, EventsSendWhole};
ghost use Rattle.law_descriptors.specs.queue_events.Pipes.{BothKeepPipes};
ghost use Rattle.law_descriptors.specs.queue_events.OutPipes.{BothKeepOutPipes};

use usb_base::Wire;

/// Each event of the controller over a ring and the frames keeps the structures of the queues, so the pieces of transfers stay fed, ends of queues are last, and
/// links lead on.
pub fn each_event_keeps_queues<W: Wire>()
    ensures structures { BothKeepsStructures W.begins W.transacts }
    ensures fed { BothKeepsFed W.begins W.transacts }
    ensures last { BothKeepsLast W.begins W.transacts }
    ensures links { BothKeepsLinks W.begins W.transacts }
{}

/// Fronts of queues stay or go on, not past their tails; a qTD that was halted stops its queue, and its queue head waits until it is mended; and what is told of
/// each queue head stays sound.
pub fn each_event_leaves_fronts<W: Wire>()
    ensures fronts { BothKeepsFronts W.begins W.transacts }
    ensures reaches { BothKeepsReaches W.begins W.transacts }
    ensures halts { BothKeepsHalts W.begins W.transacts }
    ensures halted { BothLeavesHalted W.begins W.transacts }
    ensures mends { BothKeepsMends W.begins W.transacts }
    ensures parts { BothKeepsParts W.begins W.transacts }
{}

/// Each event moves one stream at most: the bytes of one qTD of one queue head grow, of the ring or of the frames, by what its
/// transaction moved; or nothing is told otherwise. Those bytes are added to the end of all that was moved of the queue's published qTDs.
pub fn each_event_moves_one_stream<W: Wire>()
    ensures streams { BothStreams W.begins W.transacts }
    ensures adds { BothAdds W.begins W.transacts }
{}

/// Each event keeps it that the qTDs of an OUT endpoint, in the ring or in the frames, are sent whole and in turn.
pub fn events_send_whole<W: Wire>()
    ensures { EventsSendWhole W.begins W.transacts }
{}

/// Each event keeps both sides of each pipe of an IN endpoint at high speed agreed, in the ring and in the frames.
pub fn both_keep_pipes<W: Wire>()
    ensures { BothKeepPipes W.begins W.transacts }
{}

/// Each event keeps both sides of the pipe of an OUT endpoint at high speed agreed, in the ring and in the frames: its device took the
/// bytes that the host knows to be taken, or besides them the packet that the host sends next.
pub fn both_keep_out_pipes<W: Wire>()
    ensures { BothKeepOutPipes W.begins W.transacts }
{}
