//! A worked row: the ring and the frames of `frame_control`, over a wire on which nothing is heard.
ghost use Rattle.law_controller.specs.frame_control.Samples.{base, member, met, opening};
ghost use Rattle.example_frames.specs.Runs.{AreRunning};
ghost use Rattle.example_frames.specs.Samples.{silent};

/// The controller may run over a ring of its head alone and frames that all lead to the queue head of an interrupt endpoint.
pub fn both_are_under_way()
    ensures { AreRunning silent base member met opening }
{}
