//! All that the controller can come to from where it stands is Lent (EHCI 1.0, 3, 4.6, 4.8, 4.10 and 4.12), at each moment of each script that a text spells.
ghost use Rattle.law_world.specs.memory.Reach.{RunsReachLent, TextsReachLent};

/// Where both walks are over structures that memory tells, each place that is reached is Lent.
pub fn runs_reach_lent()
    ensures { RunsReachLent }
{}

/// So it is at each moment of each script that a text spells.
#[tactic(auto, using(crate::proofs::lemmas::memory::ReachMoments::texts_reach_lent))]
pub fn texts_reach_lent()
    ensures { TextsReachLent }
{}
