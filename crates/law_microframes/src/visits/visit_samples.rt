//! Worked rows of visits, which the check computes.
ghost use Rattle.std.specs.Prelude.{◌≡◌, ℕ, suc, [], ◌∷◌};
ghost use Rattle.law_world.specs.memory.Samples.{keyboard_and_disk};
ghost use Rattle.claims_world.specs.Visits.{visited};
ghost use Rattle.law_microframes.specs.visits.VisitSamples.{typed_visits};

/// What is visited after the open of the keyboard's endpoint, which is accepted, is what the run of what is left visits.
pub fn its_visits()
    ensures { (k : ℕ) → visited keyboard_and_disk (suc k) ≡ typed_visits k }
{}

/// Where microframe 1 begins nothing was visited; then the queue head of the keyboard's endpoint is read, which element 0 leads to, and it is the one that was visited, also once it
/// was passed (4.4 and 4.12.2).
pub fn a_keyboard_is_visited()
    ensures begins { typed_visits 26 ≡ [] }
    ensures reads { typed_visits 28 ≡ 4160 ∷ [] }
    ensures passes { typed_visits 30 ≡ 4160 ∷ [] }
{}
