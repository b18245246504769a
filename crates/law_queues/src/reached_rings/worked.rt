//! Worked rows of the queue heads that a walk may reach, which the check computes.
ghost use Rattle.std.specs.Prelude.{◌≡◌, true, false};
ghost use Rattle.law_queues.specs.reached_rings.Reaching.{is_reached};
ghost use Rattle.law_queues.specs.reached_rings.Worked.{leaving_driver};

/// While the doorbell isn't answered: the head in block 128, the queue head in the ring, the one that waits and the one of the rung batch; not the
/// interrupt endpoint's, and no other address.
pub fn before_the_answer()
    ensures head { is_reached leaving_driver true 4096 ≡ true }
    ensures linked { is_reached leaving_driver true 4160 ≡ true }
    ensures waiting { is_reached leaving_driver true 4480 ≡ true }
    ensures rung { is_reached leaving_driver true 4800 ≡ true }
    ensures interrupt { is_reached leaving_driver true 4352 ≡ false }
    ensures between { is_reached leaving_driver true 4161 ≡ false }
{}

/// Once it is: all but that of the rung batch.
pub fn after_the_answer()
    ensures head { is_reached leaving_driver false 4096 ≡ true }
    ensures linked { is_reached leaving_driver false 4160 ≡ true }
    ensures waiting { is_reached leaving_driver false 4480 ≡ true }
    ensures rung { is_reached leaving_driver false 4800 ≡ false }
    ensures interrupt { is_reached leaving_driver false 4352 ≡ false }
{}
