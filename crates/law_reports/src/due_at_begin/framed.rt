//! What stays in the frame list since a frame began (EHCI 1.0, 4.4 and 4.6).
ghost use Rattle.law_reports.specs.due_at_begin.Framed.{TextsStayInFrames};

/// An interrupt endpoint that was in the frame list as the frame began is in it at each later moment of the frame, unless a cancel of it
/// was accepted.
pub fn texts_stay_in_frames()
    ensures { TextsStayInFrames }
{}
