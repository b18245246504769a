//! Worked rows of rounds, which the check computes.
ghost use Rattle.std.specs.Prelude.{◌≡◌, ℕ, suc, [], ◌∷◌};
ghost use Rattle.law_world.specs.memory.Samples.{keyboard_and_disk};
ghost use Rattle.law_microframes.specs.time.Rounds.{round};
ghost use Rattle.law_microframes.specs.time.RoundSamples.{typed_rounds};

/// The rounds after the open of the keyboard's endpoint, which is accepted, are those of the run of what is left.
pub fn its_rounds()
    ensures { (k : ℕ) → round keyboard_and_disk (suc k) ≡ typed_rounds k }
{}

/// In the first microframe the head of the ring is read and begins a round, then the queue head of the disk's endpoint, which is idle; where the walk comes back to the head and nothing
/// was done, that begins another, and the part ends (4.8.3).
pub fn the_ring_is_walked_once()
    ensures outside { typed_rounds 30 ≡ [] }
    ensures head { typed_rounds 32 ≡ 4096 ∷ [] }
    ensures disk { typed_rounds 36 ≡ 4256 ∷ 4096 ∷ [] }
    ensures passed { typed_rounds 38 ≡ 4256 ∷ 4096 ∷ [] }
    ensures again { typed_rounds 40 ≡ 4096 ∷ [] }
{}
