//! The laws.
ghost use Rattle.law_frames.specs.framed_fronts.FrameFronts.{FrameKeepsLinks, FrameKeepsTail, FrameKeepsFront, FrameKeepsHalts, FrameLeavesHalted, FramesKeepFront, FramesKeepHalts};

use usb_base::Wire;

/// Each event of the walk of the frames leaves the front of each queue head, or moves it on; a qTD that is done stands behind it from then on. Links lead on
/// and no further than before, and where a qTD that is out is halted, its queue head is, of which all structures stay.
pub fn each_event_of_the_frames<W: Wire>()
    ensures links { FrameKeepsLinks W.transacts }
    ensures tail { FrameKeepsTail W.transacts }
    ensures front { FrameKeepsFront W.transacts }
    ensures halts { FrameKeepsHalts W.transacts }
    ensures stays { FrameLeavesHalted W.transacts }
{}

/// It is so however many events follow each other.
pub fn however_many_events<W: Wire>()
    ensures front { FramesKeepFront W.transacts }
    ensures halts { FramesKeepHalts W.transacts }
{}
