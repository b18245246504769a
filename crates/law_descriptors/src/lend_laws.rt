//! The laws.
ghost use Rattle.law_descriptors.specs.LendLaws.{AcceptedAwaitLend, FramesAwaitLend, WrittenStay, FramesDescribe};
ghost use Rattle.law_descriptors.specs.Lent.{LendDescribes, LendLeaves};

/// Once isochronous descriptors were accepted, all that is to be lent are their runs and those of their buffers, which are kept, and the words of the
/// descriptors stand there, with their slots and their buffers. They get their frames, and the controller leaves them.
pub fn descriptors_are_written()
    ensures accepted { AcceptedAwaitLend }
    ensures frames { FramesAwaitLend }
    ensures stay { WrittenStay }
{}

/// Where all that was taken for isochronous descriptors is lent, each stands in memory with its slots and its buffer, and with the link that it was given;
/// those that were lent before stand as they were, and so does all else.
pub fn descriptors_are_lent()
    ensures leaves { LendLeaves }
    ensures described { LendDescribes }
{}

/// Those that were lent before are described as before, once those of a command get their frames.
pub fn frames_describe()
    ensures frames { FramesDescribe }
{}
