//! A world or a run that breaks each clause.
ghost use Rattle.worked_claims.specs.Broken.{BreaksLent, BreaksMemory, BreaksSchedule, BreaksMicroframes, BreaksWithinLoad, BreaksInTime, BreaksBudgets};

/// A Free block with a word that isn't 0 isn't clean.
pub fn lent_is_broken_by_a_dirty_block()
    ensures { BreaksLent }
{}

/// A refusal that was counted isn't in place.
#[tactic(auto, using(crate::proofs::Breaking::breaks_memory))]
pub fn memory_is_broken_by_a_refusal()
    ensures { BreaksMemory }
{}

/// A queue head of no endpoint isn't due in its frame (4.6).
#[tactic(auto, using(crate::proofs::Breaking::breaks_schedule))]
pub fn schedule_is_broken_by_a_strange_queue_head()
    ensures { BreaksSchedule }
{}

/// The script of no lines orders no microframe that ends.
pub fn microframes_are_broken_where_none_is_ordered()
    ensures { BreaksMicroframes }
{}

/// More than 100 microseconds were paid in a microframe (USB 2.0, 5.7.4).
#[tactic(auto, using(crate::proofs::Breaking::breaks_within_load))]
pub fn within_load_is_broken_by_one_payment()
    ensures { BreaksWithinLoad }
{}

/// The periodic part of a microframe that isn't held has no time left.
#[tactic(auto, using(crate::proofs::Breaking::breaks_in_time))]
pub fn in_time_is_broken_where_none_is_left()
    ensures { BreaksInTime }
{}

/// Two interrupt endpoints of three packets of 1,024 bytes in each microframe don't fit (USB 2.0, 5.7.4).
#[tactic(auto, using(crate::proofs::Breaking::breaks_budgets))]
pub fn budgets_are_broken_by_two_large_endpoints()
    ensures { BreaksBudgets }
{}
