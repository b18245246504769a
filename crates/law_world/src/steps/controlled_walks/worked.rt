//! Worked rows, which the check computes.
ghost use Rattle.std.specs.Prelude.{◌≡◌, true, false};
ghost use Rattle.async_walk.specs.declared.rows.WalkRow.TheVariants as walks;
ghost use Rattle.async_walk.specs.Rows.{at_event, event_row, after_walk_row};
ghost use Rattle.hc_core.specs.declared.controller.ControllerRow.TheVariants as rows;
ghost use Rattle.hc_core.specs.Controller.{ended, microframe_row, new_control, walk_place};
ghost use Rattle.claims_driver.specs.Walk.{IsReached, IsWalkIn, IsBellIn};
ghost use Rattle.law_world.specs.steps.controlled_walks.Worked.{new_parts, ringing_driver, ringing, at_head, answered};

/// A new controller stands at the head of the ring, and no doorbell is pending.
pub fn a_new_controller()
    ensures walk { IsWalkIn new_parts.driver new_parts.registers new_control.walk }
    ensures bell { IsBellIn new_parts.driver new_parts.registers }
{}

/// A doorbell is pending: the walk may stand at the queue head of the rung batch, in block 150, and the microframe that ends there leaves it so.
pub fn a_pending_doorbell()
    ensures goes_on { microframe_row ringing.registers ringing.control ≡ rows.Go }
    ensures rung { IsReached ringing_driver true 150 }
    ensures walk { IsWalkIn ringing_driver ringing.registers ringing.control.walk }
    ensures ended { IsWalkIn ringing_driver ringing.registers (ended ringing.control).walk }
    ensures bell { IsBellIn ringing_driver ringing.registers }
{}

/// The walk reads the head, where nothing was done since it was read last: that ends the part, and answers the doorbell.
pub fn the_head_is_read()
    ensures row { event_row (walk_place at_head) ≡ walks.HeadEnds }
    ensures registers { (after_walk_row walks.HeadEnds (at_event (walk_place at_head))).registers ≡ answered.registers }
    ensures walk { (after_walk_row walks.HeadEnds (at_event (walk_place at_head))).walk ≡ answered.control.walk }
{}

/// Once the head was read the doorbell is answered, and the walk may reach that queue head no more, but the one that waits, in block 140.
pub fn an_answered_doorbell()
    ensures walk { IsWalkIn ringing_driver answered.registers answered.control.walk }
    ensures bell { IsBellIn ringing_driver answered.registers }
    ensures waiting { IsReached ringing_driver false 140 }
    ensures rung { IsReached ringing_driver false 150 → ⊥ }
{}
