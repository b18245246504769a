//! What is due of a high-speed interrupt endpoint as its microframe begins is done in it, whatever else the frame has (EHCI 1.0, 3.6.2,
//! 4.4, 4.6, 4.7 and 4.10; USB 2.0, 5.7.4 and 8.6).
ghost use Rattle.law_reports.specs.due_at_begin.Laws.{TextsDoWhatIsDueAtBegin};

/// Where the walk of the frames is over in a microframe, each transaction of a high-speed interrupt endpoint that was due as the microframe
/// began moved its bytes in it and was written back, unless the endpoint was cancelled since: the queue head has a transfer and its device
/// is ready for it until the walk comes there, whatever the walk comes to before, and whatever the driver does.
pub fn texts_do_what_is_due_at_begin()
    ensures { TextsDoWhatIsDueAtBegin }
{}
