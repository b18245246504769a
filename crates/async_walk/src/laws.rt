//! Laws of the walk.
//!
//! A law is a function with an empty body, whose contract is the law.
ghost use Rattle.std.specs.Prelude.{◌≡◌, ◌≢◌, ℕ, ◌<◌, ◌≤◌, true};
ghost use Rattle.word_mem.specs.Memory.{Mem};
ghost use Rattle.op_registers.specs.RegisterFile.{RegisterFile};
ghost use Rattle.hc_copy.specs.declared.held.Transaction.{Transaction};
ghost use Rattle.async_walk.specs.declared.rows.WalkRow.TheVariants.{OutOfTime, Transact};
ghost use Rattle.async_walk.specs.declared.state.WalkStep.TheVariants as steps;
ghost use Rattle.async_walk.specs.Rows.{WalkPlace, ring_row, cursor_link, walk_row, started, at_event, event_row, step_of, after_walk_row, begun_after};
ghost use Rattle.async_walk.specs.Causes.{HasReason, HasNothing, IsStuck, Cause, IsWorked};

/// Each row has its cause (EHCI 1.0, 4.8 to 4.10 and 4.15.2.4).
#[tactic(auto, using(crate::proofs::Causes::each_row_has_its_cause))]
pub fn each_row_has_its_cause()
    ensures { (p : WalkPlace) → Cause p (walk_row p) }
{}

/// The part ends exactly where the head of the ring is read with Reclamation 0, and where the price of the next transaction passes the
/// time left (4.8, 4.8.3 and 4.10.3).
#[tactic(auto, using(crate::proofs::Steps::ends_for_a_reason, crate::proofs::Steps::ends_for_each_reason))]
pub fn the_part_ends_for_a_reason()
    ensures reason { (p : WalkPlace) → step_of (event_row p) (at_event p) ≡ steps.Ended → HasReason (started p) }
    ensures each { (p : WalkPlace) → HasReason (started p) → step_of (event_row p) (at_event p) ≡ steps.Ended }
{}

/// A visit is skipped exactly where the queue head rests, its queue ends or the qTD that comes next isn't active (4.9 and 4.10.2).
#[tactic(auto, using(crate::proofs::Steps::skips_for_a_reason, crate::proofs::Steps::skips_for_each_reason))]
pub fn a_visit_is_skipped_for_a_reason()
    ensures reason { (p : WalkPlace) → step_of (event_row p) (at_event p) ≡ steps.Skip → HasNothing (started p) }
    ensures each { (p : WalkPlace) → HasNothing (started p) → step_of (event_row p) (at_event p) ≡ steps.Skip }
{}

/// The walk stops exactly where a structure can't be read, or a word or byte may not be touched (4.15.2.4).
#[tactic(auto, using(crate::proofs::Steps::faults_for_a_reason, crate::proofs::Steps::faults_for_each_reason))]
pub fn a_fault_has_a_reason()
    ensures reason { (p : WalkPlace) → step_of (event_row p) (at_event p) ≡ steps.Fault → IsStuck (started p) }
    ensures each { (p : WalkPlace) → IsStuck (started p) → step_of (event_row p) (at_event p) ≡ steps.Fault }
{}

/// A queue head whose overlay is active has its transaction, or there is a reason: its NAKs are used up, it is halted, no time is left
/// for it, or a byte that it sends may not be read (4.9 and 4.10.3).
#[tactic(auto, using(crate::proofs::Works::works))]
pub fn an_active_queue_head_works()
    ensures { (p : WalkPlace) → IsWorked p (step_of (event_row p) (at_event p)) }
{}

/// What is made fits in the time left, and costs something: with no time left nothing is made.
#[tactic(auto, using(crate::proofs::Times::transactions_cost, crate::proofs::Times::transactions_fit, crate::proofs::Times::none_without_time))]
pub fn transactions_fit()
    ensures costs { (p : WalkPlace) (t : Transaction) → event_row p ≡ Transact t → 0 < t.price.0 }
    ensures fits { (p : WalkPlace) (t : Transaction) → event_row p ≡ Transact t → t.price.0 ≤ p.walk.left }
    ensures none { (p : WalkPlace) (t : Transaction) → p.walk.left ≡ 0 → event_row p ≢ Transact t }
{}

/// Where the time is over the cursor stays, and the next microframe begins with what its link leads to (4.8).
#[tactic(auto, using(crate::proofs::Times::cursor_stays, crate::proofs::Times::reads_there))]
pub fn the_next_microframe_goes_on()
    ensures cursor { (p : WalkPlace) → event_row p ≡ OutOfTime → (after_walk_row (event_row p) (at_event p)).walk.cursor ≡ p.walk.cursor }
    ensures there { (p : WalkPlace) (left : ℕ) (r : RegisterFile) (m : Mem) → event_row p ≡ OutOfTime → event_row (begun_after p left r m) ≡ ring_row m true (cursor_link r p.walk.cursor) }
{}
