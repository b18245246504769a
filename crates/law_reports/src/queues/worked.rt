//! Worked rows of what queue heads come to: that of the keyboard with eight bytes asked of it goes on to its qTD, and were its queue to end
//! there it would come to none.
ghost use Rattle.std.specs.Prelude.{◌≡◌, Some, false};
ghost use Rattle.mem_queues.specs.Structures.{queue_head_at_address};
ghost use Rattle.periodic_walk.specs.Walk.{held_address};
ghost use Rattle.claims_world.specs.Unfinished.{IsUnfinished, GoesOnToWork};
ghost use Rattle.law_reports.specs.queues.Samples.{key_world, key_queue, ended_queue, visited_world, copy_in};

/// The premises are met: the keyboard's endpoint has a transfer whose qTD is active, and its queue head isn't halted.
pub fn a_get_is_unfinished()
    ensures unfinished { IsUnfinished key_world.driver key_world.memory 0 }
    ensures queue { (queue_head_at_address key_world.memory 4160 ≡ Some key_queue) × (key_queue.token.halted ≡ false) }
{}

/// Its queue head goes on to that qTD.
pub fn a_queue_head_comes_to_it()
    ensures { GoesOnToWork key_world.memory key_queue }
{}

/// One whose queue ends there would come to none.
pub fn one_that_ends_comes_to_none()
    ensures { GoesOnToWork key_world.memory ended_queue → ⊥ }
{}

/// In a visit its copy goes on to that qTD too.
pub fn a_copy_comes_to_it()
    ensures held { held_address visited_world.control.frame.hand ≡ Some 4160 }
    ensures works { GoesOnToWork visited_world.memory (copy_in visited_world.control.frame.hand) }
{}
