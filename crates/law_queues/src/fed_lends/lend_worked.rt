//! Worked rows of the definitions, which the check computes.
ghost use Rattle.std.specs.Prelude.{◌≡◌, ℕ, [], ◌∷◌};
ghost use Rattle.law_driver_ring.specs.TransferWorked.{notes, stage};
ghost use Rattle.law_queues.specs.fed_lends.Numbers.{numbered, at_queue};

/// A qTD in block 2 and the inactive one in block 3 have numbers from 10 on, and that in block 1 keeps its own.
pub fn numbers()
    ensures new { numbered notes (stage ∷ []) 2 10 (λ a. 4) 64 ≡ 10 }
    ensures last { numbered notes (stage ∷ []) 2 10 (λ a. 4) 96 ≡ 11 }
    ensures old { numbered notes (stage ∷ []) 2 10 (λ a. 4) 32 ≡ 4 }
    ensures queue { at_queue {X = ℕ} (λ n. 0) 4160 7 4160 ≡ 7 }
    ensures others { at_queue {X = ℕ} (λ n. 0) 4160 7 4096 ≡ 0 }
{}
