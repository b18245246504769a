//! Worked rows, which the check computes: of the frame of an iTD and a queue head.
ghost use Rattle.std.specs.Prelude.{◌≡◌};
ghost use Rattle.async_walk.specs.declared.state.WalkStep.{WalkStep};
ghost use Rattle.periodic_walk.specs.Rows.{step_of, Leads};
ghost use Rattle.law_frames.specs.FrameHand.{Nothing};
ghost use Rattle.law_frames.specs.Frame.{IsFrame};
ghost use Rattle.law_frames.specs.PartSamples.{met, parts, at, fetched};
ghost use Rattle.law_frames.specs.FetchSamples.{is_asked, behind, queue_read, last};

/// The iTD is read first, with nothing asked; and at its end the chain is over.
pub fn a_chain_is_read()
    ensures before { IsFrame met parts Nothing at }
    ensures reads { step_of at ≡ WalkStep.Fetch }
    ensures leads { Leads is_asked at 0 fetched 0 }
    ensures at_end { IsFrame met parts Nothing last }
    ensures ends { step_of last ≡ WalkStep.Ended }
    ensures over { Leads is_asked last 0 last 0 }
{}

/// Behind the iTD, the queue head is.
pub fn a_queue_head_is_read()
    ensures before { IsFrame met parts Nothing behind }
    ensures reads { step_of behind ≡ WalkStep.Fetch }
    ensures leads { Leads is_asked behind 0 queue_read 0 }
{}
