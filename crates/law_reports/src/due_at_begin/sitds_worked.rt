//! Worked rows of what is due of a siTD as its microframe begins, which the check computes: a full-speed speaker and a full-speed
//! microphone behind a hub in microframe 0 of their frame (EHCI 1.0, 3.4, 4.6 and 4.12.3).
ghost use Rattle.std.specs.Prelude.{◌≡◌, ◌+◌, true, false};
ghost use Rattle.itd_sitd.specs.declared.sitd.Sitd.{Sitd};
ghost use Rattle.hc_core.specs.declared.controller.ControllerRow.TheVariants.{Begin};
ghost use Rattle.bus_wire.specs.Bus.{fixed_of};
ghost use Rattle.bus_world.specs.World.{controller_row};
ghost use Rattle.claims_world.specs.DueAtBegin.{IsUncancelled};
ghost use Rattle.claims_world.specs.SitdsAtBegin.{IsSitdDueAtBegin, HasServed};
ghost use Rattle.claims_world.specs.SlotsAtBegin.{IsDescriptorOfEndpoint};
ghost use Rattle.claims_world.specs.Visits.{IsPastFrames, frame_in, is_held_now};
ghost use Rattle.law_microframes.specs.due.sitds.Samples.{speaker, microphone, speaker_place, microphone_place, with_sound, sound_at, sounds};
ghost use Rattle.law_reports.specs.due_at_begin.Samples.{cancelled_speaker};
ghost use Rattle.law_reports.specs.due_at_begin.Stored.{IsStoredFor};

/// The Begin of its microframe leaves a world in which the first part of the speaker's is due, and the descriptor is the speaker's.
pub fn a_sitd_is_due_at_begin()
    ensures begins { controller_row (sound_at speaker 400 speaker_place 0) ≡ Begin }
    ensures due { IsSitdDueAtBegin (sound_at speaker 400 speaker_place 1) 4160 }
    ensures own { IsDescriptorOfEndpoint (sound_at speaker 400 speaker_place 1).driver 0 4160 }
{}

/// The microphone's start-split is due then; once it is written back after that, nothing of it is due in this microframe.
pub fn a_start_split_that_is_made_isnt_due()
    ensures due { IsSitdDueAtBegin (sound_at microphone 0 microphone_place 1) 4160 }
    ensures made { IsSitdDueAtBegin (sound_at microphone 0 microphone_place 4) 4160 → ⊥ }
{}

/// Where the part was sent and isn't written back it isn't made yet; once the walk of the frames is over it is, in a microframe that isn't
/// held, and no cancel of the speaker was accepted.
pub fn a_sitd_is_served_by_the_end()
    ensures not_yet { (v : Sitd) → HasServed 0 4160 v (sounds speaker 400 speaker_place 3).made → ⊥ }
    ensures over { IsPastFrames (sound_at speaker 400 speaker_place 4) }
    ensures free { is_held_now (fixed_of (with_sound speaker 400)) (sound_at speaker 400 speaker_place 4) ≡ false }
    ensures kept { IsUncancelled (sound_at speaker 400 speaker_place 4).driver 0 }
    ensures served { (d : IsSitdDueAtBegin (sound_at speaker 400 speaker_place 1) 4160)
        → HasServed 0 4160 d.sitd (sounds speaker 400 speaker_place 4).made }
{}

/// A speaker whose cancel is accepted in its microframe is cancelled.
pub fn a_cancelled_speaker_is_excused()
    ensures { IsUncancelled cancelled_speaker.driver 0 → ⊥ }
{}

/// The speaker's descriptor is stored for its frame as the microframe begins; it isn't for the next frame.
pub fn a_sitd_is_stored_for_its_frame()
    ensures stored { IsStoredFor true (sound_at speaker 400 speaker_place 1).driver 0 4160
        (frame_in (sound_at speaker 400 speaker_place 1).control.frame.index) }
    ensures another { IsStoredFor true (sound_at speaker 400 speaker_place 1).driver 0 4160
        (frame_in (sound_at speaker 400 speaker_place 1).control.frame.index + 1) → ⊥ }
{}
