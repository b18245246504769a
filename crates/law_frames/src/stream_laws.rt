ghost use Rattle.law_frames.specs.FrameStreams.{FrameMovesStreams};

use usb_base::Wire;

/// Each event of the walk of the frames is one transaction of one queue head, by which the bytes of its current qTD grow; or nothing is
/// told otherwise of any, and it is one of an isochronous descriptor, or nothing was asked.
pub fn frame_moves_streams<W: Wire>()
    ensures { FrameMovesStreams W.transacts }
{}
