//! What the stores of the frame list change of its links, while its members are linked and unlinked (EHCI 1.0, 3.1, 3.3.1 and 4.6).
ghost use Rattle.law_microframes.specs.visits.Splices.{NextStoreSplices};

/// Each store goes to a word that led past the member which it links, or to the one which it unlinks; and that one stands in each frame which has the word.
pub fn next_store_splices()
    ensures { NextStoreSplices }
{}
