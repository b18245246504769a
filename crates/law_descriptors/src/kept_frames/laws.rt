ghost use Rattle.law_descriptors.specs.kept_frames.Laws.{EventsKeepBoth, EventsLeaveWords, RingLeavesFrames, FramesLeaveRing};

use usb_base::Wire;

/// Each event keeps structures: of the ring's walk, of the walk of the frames, or where a microframe begins.
pub fn events_keep_both<W: Wire>()
    ensures { EventsKeepBoth W.begins W.transacts }
{}

/// So it leaves the states of blocks, the words that aren't in a Lent block, and of what is told the words that no event writes.
pub fn events_leave_words<W: Wire>()
    ensures { EventsLeaveWords W.begins W.transacts }
{}

/// An event of one walk leaves the structures of what the other meets.
pub fn each_walk_leaves_the_other<W: Wire>()
    ensures ring { RingLeavesFrames W.begins W.transacts }
    ensures frames { FramesLeaveRing W.transacts }
{}
