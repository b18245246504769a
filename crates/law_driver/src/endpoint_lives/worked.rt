//! Worked rows, which the check computes.
ghost use Rattle.std.specs.Prelude.{◌≡◌, true, false, Some, None, if◌then◌else◌};
ghost use Rattle.usb_base.specs.declared.endpoints.EndCause.{EndCause};
ghost use Rattle.drv_table.specs.declared.content.Endpoint.{Endpoint};
ghost use Rattle.law_driver.specs.endpoint_lives.Lives.{told_end, may_meet};
ghost use Rattle.law_driver.specs.endpoint_lives.Samples.{cancelled, left, given_back, stalled, leaving_driver};

/// One that was cancelled has ended as far as its report has it only when it is given back, and may be met until Async Advance is cleared after the answered doorbell.
pub fn a_cancelled_endpoint_leaves()
    ensures going { (x : Endpoint) → told_end (cancelled x) ≡ (if x.gone then Some EndCause.Cancel else None) }
    ensures over { (x : Endpoint) → told_end (given_back x) ≡ Some EndCause.Cancel }
    ensures waits { (x : Endpoint) → may_meet leaving_driver 1 (left x) ≡ true }
    ensures rung { (x : Endpoint) → may_meet leaving_driver 2 (left x) ≡ true }
    ensures cleared { (x : Endpoint) → may_meet leaving_driver 3 (left x) ≡ false }
{}

/// One that a stall ended before has its line, and its cancel has none.
pub fn an_endpoint_that_ended_before()
    ensures { (x : Endpoint) → told_end (stalled x) ≡ Some EndCause.Stall }
{}
