//! Worked rows of what is due of an isochronous slot as its microframe begins, which the check computes: a microphone's descriptor in
//! microframe 0 of its frame (EHCI 1.0, 3.3.2, 4.6 and 4.7.1).
ghost use Rattle.std.specs.Prelude.{◌≡◌, false};
ghost use Rattle.hc_core.specs.declared.controller.ControllerRow.TheVariants.{Begin};
ghost use Rattle.bus_wire.specs.Bus.{fixed_of};
ghost use Rattle.bus_world.specs.World.{controller_row};
ghost use Rattle.law_world.specs.memory.MicrophoneSamples.{one_microphone, heard_at};
ghost use Rattle.law_microframes.specs.due.slots.Samples.{due_at, due_slots};
ghost use Rattle.claims_world.specs.DueAtBegin.{IsUncancelled};
ghost use Rattle.claims_world.specs.SlotsAtBegin.{IsDescriptorOfEndpoint, IsSlotDueAtBegin};
ghost use Rattle.claims_world.specs.Visits.{HasVisited, IsPastFrames, frame_in, is_held_now};
ghost use Rattle.law_reports.specs.due_at_begin.Samples.{cancelled_microphone};
ghost use Rattle.law_reports.specs.due_at_begin.Stored.{IsStoredFor};

/// The Begin of its microframe leaves a world in which its slot is due, and the descriptor is the microphone's.
pub fn a_slot_is_due_at_begin()
    ensures begins { controller_row (due_at 0) ≡ Begin }
    ensures due { IsSlotDueAtBegin (due_at 1) 4160 }
    ensures own { IsDescriptorOfEndpoint (due_at 1).driver 0 4160 }
{}

/// Once it is written back it isn't due any more.
pub fn a_slot_that_is_done_isnt_due()
    ensures { IsSlotDueAtBegin (due_at 4) 4160 → ⊥ }
{}

/// Where its transaction was made and isn't written back it isn't done yet; once the walk of the frames is over it is, in a microframe that
/// isn't held, and no cancel of the microphone was accepted.
pub fn a_slot_is_done_by_the_end()
    ensures not_yet { HasVisited 4160 (due_slots 3).done → ⊥ }
    ensures over { IsPastFrames (due_at 4) }
    ensures free { is_held_now (fixed_of one_microphone) (due_at 4) ≡ false }
    ensures kept { IsUncancelled (due_at 4).driver 0 }
    ensures done { HasVisited 4160 (due_slots 4).done }
{}

/// A microphone whose cancel is accepted in its microframe is cancelled.
pub fn a_cancelled_microphone_is_excused()
    ensures { IsUncancelled cancelled_microphone.driver 0 → ⊥ }
{}

/// The descriptor is stored for its frame as the microframe begins; it isn't while the command that took it on has it to link.
pub fn a_descriptor_is_stored_for_its_frame()
    ensures stored { IsStoredFor false (due_at 1).driver 0 4160 (frame_in (due_at 1).control.frame.index) }
    ensures not_yet { IsStoredFor false (heard_at 2).driver 0 4160 (frame_in (due_at 1).control.frame.index) → ⊥ }
{}
