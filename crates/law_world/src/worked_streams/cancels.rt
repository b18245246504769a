//! Small scripts whose endpoints are cancelled (EHCI 1.0, 4.8.2).
ghost use Rattle.std.specs.Prelude.{ℕ};
ghost use Rattle.claims_world.specs.Releases.{HeardAdvance};
ghost use Rattle.law_world.specs.worked_streams.small_receiver.Samples.{one_cancel};

/// Its endpoint is given back by event 33, after it left the ring by event 23, the doorbell was rung by event 24, and Async Advance read by event 29; no endpoint is
/// given back by event 2 after all these.
#[tactic(auto, using(crate::proofs::lemmas::worked_streams::CancelLetGo::heard, crate::proofs::lemmas::worked_streams::CancelLetGo::none_so_early))]
pub fn what_was_heard_before_the_release()
    ensures heard { HeardAdvance one_cancel 0 33 }
    ensures early { (e : ℕ) → HeardAdvance one_cancel e 2 → ⊥ }
{}
