//! Worked rows.
ghost use Rattle.std.specs.Prelude.{◌≡◌, true, false};
ghost use Rattle.law_world.specs.steps.closed_streams.Closed.{without_name, without_head};

/// Endpoint 1 of device 5 is left out, and neither its endpoint 2 nor endpoint 1 of device 6; of two queue heads that at 64 is.
pub fn what_is_left_out()
    ensures closed { without_name (λ a e. true) 5 1 5 1 ≡ false }
    ensures number { without_name (λ a e. true) 5 1 5 2 ≡ true }
    ensures device { without_name (λ a e. true) 5 1 6 1 ≡ true }
    ensures head { without_head (λ k. true) 64 64 ≡ false }
    ensures other { without_head (λ k. true) 64 32 ≡ true }
{}
