//! Worked rows: what meets the premises, and what breaks each.
ghost use Rattle.std.specs.Prelude.{◌≡◌, ◌++◌, ℕ, List, [], None, Some};
ghost use Rattle.usb_base.specs.declared.packets.DataPart.TheVariants.{Middle};
ghost use Rattle.drv_chains.specs.declared.boundary.Boundary.TheVariants.{Since, Seen};
ghost use Rattle.tt_pipeline.specs.Worked.{iso_out};
ghost use Rattle.law_translator.specs.Premises.{Follows};
ghost use Rattle.law_microframes.specs.plans.Samples.{filmed};
ghost use Rattle.claims_world.specs.Gaps.{gaps_worked};
ghost use Rattle.claims_world.specs.Pipelines.{StuffsAtMost};
ghost use Rattle.law_microframes.specs.translators.Keeping.{IsOwned, EntryLacks};
ghost use Rattle.claims_world.specs.HubPlans.{plans_now};
ghost use Rattle.law_microframes.specs.translators.Parts.{EachOf, Lacks, IsEven};
ghost use Rattle.hc_iso.specs.declared.held.SplitOutcome.TheVariants.{Moved};
ghost use Rattle.bus_world.specs.World.{World};
ghost use Rattle.law_microframes.specs.translators.Rooms.{HasRoom};
ghost use Rattle.law_microframes.specs.translators.Told.{IsLastIn};
ghost use Rattle.law_microframes.specs.translators.Turns.{EntriesAre, IsUnasked, OutsGoOn};
ghost use Rattle.law_microframes.specs.translators.Samples.{speaking, speaker_sitd, camera_start, camera_key, leaving, speaker_key, begun, gone_on, ended, spoken, stuffed_bits};

/// The camera's start-split follows its plan in microframe 1 of its frames, in no other microframe, and at no other hub.
pub fn a_camera_follows_its_plan()
    ensures follows { Follows (plans_now filmed 1 9 0) 1 camera_start 0 [] }
    ensures late { Follows (plans_now filmed 2 9 0) 2 camera_start 0 [] → ⊥ }
    ensures elsewhere { Follows (plans_now filmed 1 8 0) 1 camera_start 0 [] → ⊥ }
    ensures no_hub { (plans_now filmed 1 137 0).keys ≡ [] }
{}

/// Its key is that of an endpoint which stays for the frame; at another hub it isn't, nor once its removal was read past the frame.
pub fn a_camera_is_owned()
    ensures owned { IsOwned filmed 1 9 0 camera_key }
    ensures leaving { IsOwned (leaving (Since 0)) 1 9 0 camera_key }
    ensures left { IsOwned (leaving Seen) 1 9 0 camera_key → ⊥ }
    ensures elsewhere { IsOwned filmed 1 8 0 camera_key → ⊥ }
{}

/// Each microframe after the first that brings no part counts, until the last part came.
pub fn gaps_are_counted()
    ensures none { gaps_worked (λ k. 0) begun speaker_key ≡ 0 }
    ensures first { gaps_worked (λ k. 0) (gone_on 1) speaker_key ≡ 0 }
    ensures one { gaps_worked (λ k. 0) (gone_on 2) speaker_key ≡ 1 }
    ensures more { gaps_worked (λ k. 1) (gone_on 3) speaker_key ≡ 2 }
{}

/// A later part of the speaker's may come a microframe after the first, but not in the same one, nor after the last.
pub fn a_speaker_lacks_its_last_part()
    ensures lacks { EntryLacks (spoken (gone_on 1)) (iso_out Middle 1) }
    ensures twice { EntryLacks (spoken begun) (iso_out Middle 1) → ⊥ }
    ensures over { EntryLacks (spoken (ended 1)) (iso_out Middle 1) → ⊥ }
{}

/// Six stuffed bits in 36 are at most six, and are more than none.
pub fn stuffed_bits_count()
    ensures six { StuffsAtMost 6 (stuffed_bits 6) }
    ensures none { StuffsAtMost 0 (stuffed_bits 0) }
    ensures some { StuffsAtMost 0 (stuffed_bits 6) → ⊥ }
{}

/// The speaker's entry lacks its last part until that came; a microframe after a part it is even.
pub fn a_speakers_entry()
    ensures lacks { EachOf Lacks speaker_key (gone_on 1) }
    ensures over { EachOf Lacks speaker_key (ended 1) → ⊥ }
    ensures even { EachOf IsEven speaker_key (gone_on 1) }
    ensures uneven { EachOf IsEven speaker_key begun → ⊥ }
{}

/// The speaker's siTD in hand, one of whose parts was sent, waits for its transaction until that is settled; where its entry has its last
/// part already, what goes on of the OUTs is broken.
pub fn a_speaker_in_hand()
    ensures waits { IsUnasked (speaking None (gone_on 1)).control 64 }
    ensures asked { IsUnasked (speaking (Some (Moved 24)) (gone_on 1)).control 64 → ⊥ }
    ensures elsewhere { IsUnasked (speaking None (gone_on 1)).control 96 → ⊥ }
    ensures lacks { EntriesAre Lacks (speaking None (gone_on 1)).bus.hubs speaker_sitd }
    ensures over { (start : World) → (vs : List ℕ) → OutsGoOn start (speaking None (ended 1)) vs → ⊥ }
{}

/// Of an interrupt endpoint with its start-split in microframe 0 the last complete-split is in microframe 4.
pub fn a_last_complete()
    ensures last { IsLastIn 28 4 }
    ensures later { IsLastIn 28 3 → ⊥ }
    ensures none { IsLastIn 28 5 → ⊥ }
{}

/// The pipeline with the speaker's entry has room; with two entries of its key it would not.
pub fn a_pipeline_has_room()
    ensures room { HasRoom speaker_key begun }
    ensures twice { HasRoom speaker_key (begun ++ begun) → ⊥ }
{}
