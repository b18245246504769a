//! What each translator has done for what is laid, at each moment of a run.
ghost use Rattle.claims_world.specs.KeepsUp.{AllKeepUp, AllKeepUpStuffed};
ghost use Rattle.claims_world.specs.Answered.{AllAnswered};
ghost use Rattle.law_microframes.specs.translators.Laws.{AlongRuns, EntriesStayOwned};

/// Where no endpoint has stuffed bits, and each start-split is one that its plan calls for: each entry has had what is laid for it up to
/// the last microframe but one, less what its missing parts were to bring, or all that its starts call for; an interrupt's result and the
/// last bytes of an isochronous IN are there by its last complete-split.
pub fn translators_keep_up()
    ensures work { AlongRuns 0 AllKeepUp }
    ensures answers { AlongRuns 0 (AllAnswered 1) }
{}

/// With stuffed bits, at most one in six, all of that is so one microframe later.
pub fn stuffed_translators_keep_up()
    ensures work { AlongRuns 6 AllKeepUpStuffed }
    ensures answers { AlongRuns 6 (AllAnswered 2) }
{}

/// An endpoint that has an entry isn't given back in the frame: it stays in the plan, where it was.
pub fn entries_stay_owned()
    ensures { EntriesStayOwned }
{}
