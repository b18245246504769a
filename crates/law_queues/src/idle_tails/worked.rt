//! Worked rows.
ghost use Rattle.std.specs.Prelude.{ℕ};
ghost use Rattle.law_ring.specs.Front.{IsFront};
ghost use Rattle.law_queues.specs.idle_tails.Worked.{halted, at_rest, goes_on};

/// An overlay that is halted tells no front, nor does one at rest with no link; one that goes on has it at that qTD.
pub fn fronts_of_overlays()
    ensures halted { (front : ℕ) → IsFront (λ a. a) front halted }
    ensures at_rest { (front : ℕ) → IsFront (λ a. a) front at_rest }
    ensures goes_on { IsFront (λ a. a) 4256 goes_on }
{}
