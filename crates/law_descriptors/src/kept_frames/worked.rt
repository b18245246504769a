//! A worked row, which the check computes: of a ring with its head alone, and frames that all lead to the queue head of an interrupt endpoint.
ghost use Rattle.law_ring.specs.Hand.{Empty};
ghost use Rattle.law_frames.specs.FrameHand.{Nothing};
ghost use Rattle.law_controller.specs.frame_control.Both.{RunsBoth};
ghost use Rattle.law_controller.specs.frame_control.Samples.{base, member, met, parts, opening};
ghost use Rattle.law_controller.specs.aligned_copies.Aligned.{AreAligned};

/// Before its first microframe it runs over both, and its addresses are aligned.
pub fn a_frame_begins()
    ensures runs { RunsBoth base member met parts Empty Nothing opening }
    ensures aligned { AreAligned opening }
{}
