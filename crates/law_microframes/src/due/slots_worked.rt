//! Worked rows of slots: the microphone's descriptor is fetched with an active slot, and that slot is done once the walk is over.
ghost use Rattle.std.specs.Prelude.{◌≡◌, false, [], ◌∷◌};
ghost use Rattle.bus_wire.specs.Bus.{fixed_of};
ghost use Rattle.claims_world.specs.Visits.{IsPastFrames, is_held_now};
ghost use Rattle.law_world.specs.memory.MicrophoneSamples.{one_microphone};
ghost use Rattle.law_microframes.specs.due.slots.Samples.{due_at, due_slots};

/// Its frame begins, and the walk comes to it; the slot of the microframe is active and not done yet: before the walk is over the two
/// differ.
pub fn a_slot_is_fetched()
    ensures active { (due_slots 2).active ≡ 4160 ∷ [] }
    ensures done { (due_slots 2).done ≡ [] }
    ensures walking { IsPastFrames (due_at 2) → ⊥ }
    ensures before { (due_slots 2).done ≡ (due_slots 2).active → ⊥ }
{}

/// Two events later the walk is over, in a microframe that isn't held, and the slot is done.
pub fn a_slot_is_done()
    ensures past { IsPastFrames (due_at 4) }
    ensures free { is_held_now (fixed_of one_microphone) (due_at 4) ≡ false }
    ensures active { (due_slots 4).active ≡ 4160 ∷ [] }
    ensures done { (due_slots 4).done ≡ 4160 ∷ [] }
{}
