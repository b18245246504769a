//! Worked rows, which the check computes: of a ring with its head alone, and frames that all lead to the queue head of an interrupt endpoint.
ghost use Rattle.std.specs.Prelude.{◌≡◌};
ghost use Rattle.link_words.specs.declared.kinds.Link.{Link};
ghost use Rattle.link_words.specs.Links.{link_read};
ghost use Rattle.law_ring.specs.Hand.{Empty};
ghost use Rattle.law_frames.specs.FrameHand.{Nothing};
ghost use Rattle.law_frames.specs.FrameStreams.{IsIsoAsk};
ghost use Rattle.law_controller.specs.frame_control.Both.{RunsBoth, BothEffect};
ghost use Rattle.law_controller.specs.frame_control.Joined.{joined, BothStreamEffect};
ghost use Rattle.law_controller.specs.frame_control.Samples.{base, member, met, parts, opening, steps_on, is_deaf};

/// The controller runs over both, before its first microframe.
pub fn both_are_run()
    ensures { RunsBoth base member met parts Empty Nothing opening }
{}

/// Each element of the frame list is the link to the queue head.
#[tactic(auto, unfolding(link_words::specs::Links::link_read))]
pub fn the_link_of_an_element()
    ensures { link_read 66 ≡ Link.Qh 64 }
{}

/// Its first microframe begins: nothing is told otherwise of any queue head.
pub fn a_microframe_moves_nothing()
    ensures effect { BothEffect steps_on is_deaf parts opening.control Empty Nothing 0 1 parts Empty Nothing }
    ensures streams { BothStreamEffect steps_on (IsIsoAsk parts) is_deaf parts (joined Empty Nothing) 0 1 parts (joined Empty Nothing) }
{}
