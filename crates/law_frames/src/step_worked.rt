//! A worked row, which the check computes.
ghost use Rattle.std.specs.Prelude.{◌≡◌};
ghost use Rattle.async_walk.specs.declared.state.WalkStep.{WalkStep};
ghost use Rattle.periodic_walk.specs.Rows.{step_of};
ghost use Rattle.law_frames.specs.FrameHand.{Nothing};
ghost use Rattle.law_frames.specs.Frame.{IsFrame};
ghost use Rattle.law_frames.specs.PartSamples.{met, parts, at};

/// In the frame of an iTD and a queue head a structure is read first.
pub fn an_itd_comes_first()
    ensures frame { IsFrame met parts Nothing at }
    ensures kind { step_of at ≡ WalkStep.Fetch }
{}
