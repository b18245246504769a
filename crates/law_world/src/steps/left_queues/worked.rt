//! Worked rows, which the check computes.
ghost use Rattle.std.specs.Prelude.{◌≡◌, ℕ, true, false, Some};
ghost use Rattle.drv_table.specs.declared.rows.DriverRow.TheVariants as rows;
ghost use Rattle.drv_table.specs.Rows.{driver_row, after_driver_row};
ghost use Rattle.law_ring.specs.Told.{Endpoint as Told};
ghost use Rattle.law_queues.specs.reached_rings.Reaching.{is_reached};
ghost use Rattle.law_world.specs.steps.endpoint_releases.Samples.{left_endpoint};
ghost use Rattle.law_world.specs.steps.endpoint_releases.Released.{IsToLeave, endpoint_row};
ghost use Rattle.law_world.specs.steps.left_queues.Standing.{AllStand, met_streams};
ghost use Rattle.law_world.specs.steps.left_queues.Samples.{cleared_driver, cleared_parts, only_end, head_alone, no_stream, as_addresses, none_out, rung_parts};

/// Of an endpoint that is to be given back the queue is still told, and the walk meets the head of the ring alone.
pub fn what_stands_of_a_cleared_endpoint()
    ensures leaves { IsToLeave cleared_driver 0 left_endpoint }
    ensures row { driver_row cleared_parts ≡ endpoint_row 0 }
    ensures stand { (ends : ℕ → Told) → AllStand cleared_driver head_alone no_stream ends only_end as_addresses none_out }
{}

/// Once Async Advance is cleared the head of the ring, the endpoint in it and the one that waits have their streams, and the one that was rung for has none.
pub fn whose_streams_stay()
    ensures head { is_reached (after_driver_row rows.ClearAdvance rung_parts).driver true 4096 ≡ true }
    ensures linked { met_streams (λ n. true) (is_reached (after_driver_row rows.ClearAdvance rung_parts).driver true) 4160 ≡ true }
    ensures waits { met_streams (λ n. true) (is_reached (after_driver_row rows.ClearAdvance rung_parts).driver true) 4480 ≡ true }
    ensures rung { met_streams (λ n. true) (is_reached (after_driver_row rows.ClearAdvance rung_parts).driver true) 4800 ≡ false }
{}
