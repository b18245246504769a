//! Worked rows of reasons, which the check computes (EHCI 1.0, 4.6, 4.10, 4.10.3 and 4.12.2.4).
ghost use Rattle.std.specs.Prelude.{◌≡◌, true, false, [], ◌∷◌};
ghost use Rattle.hc_interrupt.specs.Samples.{high_in, split_in};
ghost use Rattle.hc_core.specs.Controller.{time_left};
ghost use Rattle.bus_wire.specs.Bus.{fixed_of};
ghost use Rattle.claims_world.specs.Visits.{is_held_now};
ghost use Rattle.hc_copy.specs.Samples.{counted, ring_head};
ghost use Rattle.law_microframes.specs.visits.ReasonSamples.{HasReason, HasReasonInRing, HasSplitReason, empty_at, empty_script};

/// Where microframe 1 is held, no time is left from its Begin on; where the microframes 2 and 3 are, it has its 125 microseconds.
pub fn a_held_microframe_begins()
    ensures held { is_held_now (fixed_of (empty_script ((1, 1) ∷ []))) (empty_at ((1, 1) ∷ []) 1) ≡ true }
    ensures no_time { time_left (empty_at ((1, 1) ∷ []) 1).control ≡ 0 }
    ensures free { is_held_now (fixed_of (empty_script ((2, 3) ∷ []))) (empty_at ((2, 3) ∷ []) 1) ≡ false }
    ensures whole_time { time_left (empty_at ((2, 3) ∷ []) 1).control ≡ 125000000 }
{}

/// A high-speed queue head of microframes 0 and 4 is passed in microframe 1; in microframe 0 where 100 picoseconds are left, and not where the whole microframe is. One that waits
/// for complete-splits in microframes 2, 3 and 4 is passed in microframe 1.
pub fn a_queue_head_is_passed()
    ensures another_microframe { HasReason high_in 41 125000000 }
    ensures late { HasReason high_in 40 100 }
    ensures in_time { HasReason high_in 40 125000000 → ⊥ }
    ensures no_complete_split { HasReason (split_in true 0) 41 125000000 }
{}

/// A queue head of the ring is passed where its NAKs are used up and where it is halted; an active one isn't while NAKs are left, nor
/// where they aren't counted.
pub fn a_queue_head_of_the_ring_is_passed()
    ensures used_up { HasReasonInRing (counted 4 0) }
    ensures halted { HasReasonInRing ring_head }
    ensures left { HasReasonInRing (counted 4 3) → ⊥ }
    ensures uncounted { HasReasonInRing (counted 0 0) → ⊥ }
{}

/// A siTD with a start-split in microframe 0 is passed in microframe 1; in microframe 0 where 100 picoseconds are left, and not where the
/// whole microframe is. One with its complete-splits to come in microframes 2, 3 and 4 is passed in microframe 1, and not in 2.
pub fn a_split_descriptor_is_passed()
    ensures another_microframe { HasSplitReason false 41 125000000 }
    ensures late { HasSplitReason false 40 100 }
    ensures in_time { HasSplitReason false 40 125000000 → ⊥ }
    ensures no_complete_split { HasSplitReason true 41 125000000 }
    ensures complete_split { HasSplitReason true 42 125000000 → ⊥ }
{}
