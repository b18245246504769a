//! The tail of each queue while no command is unfinished (EHCI 1.0, 4.10.2): the inactive qTD at its end, past which the walk doesn't go.
//!
//! The module has no code of its own: each function is a law over the definitions of `standing_fronts`, and its body is empty.

pub mod worked;

ghost use Rattle.law_queues.specs.idle_tails.Idle.{SoundQueuesReach, IdleQueuesReach};

/// Where no command is unfinished, each queue with a front reaches no further than the inactive qTD at its end.
pub fn idle_queues_reach()
    ensures { IdleQueuesReach }
{}

/// So wherever its queue head stands, in the ring or in frames.
pub fn sound_queues_reach()
    ensures { SoundQueuesReach }
{}
