//! Worked rows.
ghost use Rattle.law_ring.specs.Front.{HasFront};
ghost use Rattle.law_ring.specs.Halted.{IsHalted, HaltStops};
ghost use Rattle.law_ring.specs.HaltSamples.{halted_element, halted_part, both_out};
ghost use Rattle.std.specs.Prelude.{ℕ, ◌/◌};

/// A queue head that was halted at its qTD has its front at the next, which is published yet.
pub fn a_halt()
    ensures halted { IsHalted halted_element }
    ensures front { HasFront (λ a. a / 64) 3 both_out 64 halted_part }
    ensures stops { HaltStops (λ a. a / 64) both_out 64 halted_part }
{}
