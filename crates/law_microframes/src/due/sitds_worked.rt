//! Worked rows of split isochronous transfer descriptors, which the check computes: a full-speed speaker and a full-speed microphone behind
//! a hub (EHCI 1.0, 3.4 and 4.12.3; USB 2.0, 5.6 and 11.18).
ghost use Rattle.std.specs.Prelude.{◌≡◌, ℕ, true, false, [], ◌∷◌, map};
ghost use Rattle.itd_sitd.specs.declared.sitd.Sitd.{Sitd};
ghost use Rattle.hc_iso.specs.declared.held.SitdTurn.TheVariants.{Work, Rest, Miss};
ghost use Rattle.hc_iso.specs.Samples.{split_in};
ghost use Rattle.hc_iso.specs.Sitd.{sitd_turn};
ghost use Rattle.claims_world.specs.Sitds.{AreServed};
ghost use Rattle.claims_world.specs.Visits.{IsPastFrames};
ghost use Rattle.law_microframes.specs.due.sitds.Samples.{speaker, microphone, speaker_place, microphone_place, sound_at, sounds};
ghost use Rattle.law_microframes.specs.due.sitds.Samples.{said, asked, heard, last, made_so, nothing_heard, first_bytes, last_bytes};

/// The speaker's frame begins, and the walk comes to its descriptor, of which the first part is to be sent; where it was sent and isn't
/// written back it isn't made yet.
pub fn a_speaker_comes()
    ensures came { map (λ (c : ℕ × Sitd). c.0) (sounds speaker 400 speaker_place 2).came ≡ 4160 ∷ [] }
    ensures made { (sounds speaker 400 speaker_place 2).made ≡ [] }
    ensures not_yet { AreServed 0 (sounds speaker 400 speaker_place 3).came (sounds speaker 400 speaker_place 3).made → ⊥ }
{}

/// One event later the walk is over, and its part is made.
pub fn a_speaker_is_served()
    ensures over { IsPastFrames (sound_at speaker 400 speaker_place 4) }
    ensures served { AreServed 0 (sounds speaker 400 speaker_place 4).came (sounds speaker 400 speaker_place 4).made }
{}

/// So it is of the start-split of the microphone's.
pub fn a_microphone_is_served()
    ensures came { map (λ (c : ℕ × Sitd). c.0) (sounds microphone 0 microphone_place 2).came ≡ 4160 ∷ [] }
    ensures made { (sounds microphone 0 microphone_place 2).made ≡ [] }
    ensures not_yet { AreServed 0 (sounds microphone 0 microphone_place 3).came (sounds microphone 0 microphone_place 3).made → ⊥ }
    ensures over { IsPastFrames (sound_at microphone 0 microphone_place 4) }
    ensures served { AreServed 0 (sounds microphone 0 microphone_place 4).came (sounds microphone 0 microphone_place 4).made }
{}

/// An OUT of 400 bytes has three parts, in the microframes 1, 2 and 3, of which the last ends it; a part that is left out is missed, and a
/// siTD that is written back as it was isn't served.
pub fn parts_are_made_one_by_one()
    ensures first { sitd_turn 1 (said 0) ≡ Work }
    ensures second { sitd_turn 2 (said 1) ≡ Work }
    ensures third { sitd_turn 3 (said 2) ≡ Work }
    ensures one { AreServed 1 ((64, said 0) ∷ []) (made_so (said 1) nothing_heard ∷ []) }
    ensures two { AreServed 2 ((64, said 1) ∷ []) (made_so (said 2) nothing_heard ∷ []) }
    ensures three { AreServed 3 ((64, said 2) ∷ []) (made_so (said 3) nothing_heard ∷ []) }
    ensures going { (said 2).active ≡ true }
    ensures ended { (said 3).active ≡ false }
    ensures none_left { (said 3).total ≡ 0 }
    ensures missed { sitd_turn 3 (said 1) ≡ Miss }
    ensures unsent { AreServed 2 ((64, said 1) ∷ []) (made_so (said 1) nothing_heard ∷ []) → ⊥ }
{}

/// An IN of 200 bytes has its start-split in microframe 0, none once it waits for its complete-splits, and two of those, of which the last
/// ends it; one that is written back unmarked isn't served, nor one that the first of two answers ended.
pub fn completes_are_made_one_by_one()
    ensures started { sitd_turn 0 (split_in false 200) ≡ Work }
    ensures once { sitd_turn 0 asked ≡ Rest }
    ensures first { sitd_turn 2 asked ≡ Work }
    ensures second { sitd_turn 3 heard ≡ Work }
    ensures one { AreServed 0 ((64, split_in false 200) ∷ []) (made_so asked nothing_heard ∷ []) }
    ensures two { AreServed 2 ((64, asked) ∷ []) (made_so heard first_bytes ∷ []) }
    ensures three { AreServed 3 ((64, heard) ∷ []) (made_so last last_bytes ∷ []) }
    ensures going { heard.active ≡ true }
    ensures left { heard.total ≡ 12 }
    ensures ended { last.active ≡ false }
    ensures none_left { last.total ≡ 0 }
    ensures unmarked { AreServed 2 ((64, asked) ∷ []) (made_so asked first_bytes ∷ []) → ⊥ }
    ensures more { AreServed 2 ((64, asked) ∷ []) (made_so (record heard { active = false }) first_bytes ∷ []) → ⊥ }
{}
