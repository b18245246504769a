//! Worked rows, which the check computes.
ghost use Rattle.std.specs.Prelude.{◌≡◌, true, [], ◌∷◌, None, map};
ghost use Rattle.drv_table.specs.Rows.{after_driver_row};
ghost use Rattle.law_queues.specs.leaving_drivers.Before.{IsAsBefore, NearSame};
ghost use Rattle.law_world.specs.steps.endpoint_releases.Released.{IsToLeave, endpoint_row};
ghost use Rattle.law_world.specs.streams.put_laws.TakenPuts.{puts_of};
ghost use Rattle.law_world.specs.streams.put_laws.Owed.{rest_of};
ghost use Rattle.law_world.specs.streams.put_laws.OwedSamples.{buffers, at_half};
ghost use Rattle.law_world.specs.streams.left_puts.Samples.{cancelled_half, left_one, leaving_two, two_parts, their_puts};

/// A cancel leaves the endpoint as before, and of its put of five bytes three are still to be sent.
pub fn a_cancelled_endpoint()
    ensures before { IsAsBefore at_half cancelled_half }
    ensures near { NearSame at_half cancelled_half }
    ensures rest { rest_of cancelled_half buffers 0 ≡ 3 ∷ 4 ∷ 5 ∷ [] }
{}

/// Another endpoint is given back: of the first one three bytes are still to be sent then, and each has the puts that it had.
pub fn an_endpoint_given_back()
    ensures leaves { IsToLeave leaving_two 1 left_one }
    ensures rest { rest_of (after_driver_row (endpoint_row 1) two_parts).driver (after_driver_row (endpoint_row 1) two_parts).memory 0 ≡ 3 ∷ 4 ∷ 5 ∷ [] }
    ensures first { puts_of (after_driver_row (endpoint_row 1) two_parts).driver their_puts 0 ≡ (1 ∷ 2 ∷ 3 ∷ 4 ∷ 5 ∷ []) ∷ [] }
    ensures second { puts_of (after_driver_row (endpoint_row 1) two_parts).driver their_puts 1 ≡ (8 ∷ []) ∷ [] }
{}
