//! Worked rows.
ghost use Rattle.law_ring.specs.StoreSamples.{parts};
ghost use Rattle.law_ring.specs.Front.{LinksRise, HasFront};
ghost use Rattle.std.specs.Prelude.{ℕ, ◌/◌, [], ◌∷◌};

/// A queue head that works on its qTD has its front there.
pub fn a_front()
    ensures rise { LinksRise (λ a. a / 64) (parts 64) }
    ensures front { HasFront (λ a. a / 64) 2 (128 ∷ []) 64 (parts 64) }
{}
