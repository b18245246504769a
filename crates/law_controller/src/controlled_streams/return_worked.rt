//! Worked rows, which the check computes.
ghost use Rattle.std.specs.Prelude.{◌≡◌, ◌==◌, [], ◌∷◌};
ghost use Rattle.law_controller.specs.controlled_streams.Returned.{staying};

/// Of three qTDs that are out the second goes.
pub fn who_stays()
    ensures { staying (λ a. a == 64) (32 ∷ 64 ∷ 96 ∷ []) ≡ 32 ∷ 96 ∷ [] }
{}
