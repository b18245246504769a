//! Worked rows of siTDs: what their transactions cost, and what their words tell of their endpoints (EHCI 1.0, 3.4 and 4.12.3; USB 2.0,
//! 5.11.3 and 11.18.4).
ghost use Rattle.std.specs.Prelude.{◌≡◌, true, false, [], ◌∷◌, map, None};
ghost use Rattle.usb_base.specs.declared.commands.Cmd.TheVariants.{Iso};
ghost use Rattle.bandwidth.specs.Sums.{cost_in};
ghost use Rattle.script_types.specs.declared.scripts.Line.TheVariants.{Command};
ghost use Rattle.hc_iso.specs.Samples.{split_in};
ghost use Rattle.drv_periodic_table.specs.Descriptors.{new_sitd};
ghost use Rattle.periodic_walk.specs.declared.state.Hand.TheVariants.{Sitd};
ghost use Rattle.law_microframes.specs.time.SitdParts.{IsInParts, IsSitdOf, IsSitdInHand};
ghost use Rattle.law_microframes.specs.time.SitdFields.{HaveSitdFields, FitsSlotsOf};
ghost use Rattle.law_microframes.specs.worked_visits.Samples.{placed_speaker, placed_microphone, speaker_desc, speaker_part, paid_with, paid_over};

/// A siTD OUT of 400 bytes is paid for in three microframes: two parts of 188 bytes, and one of 24. In the microframe before them it isn't.
pub fn a_speaker_is_paid_thrice()
    ensures before { paid_over (speaker_part 400 3 1 0) 40 ≡ (0x2000, 0) ∷ [] }
    ensures first { paid_over (speaker_part 400 3 1 0) 41 ≡ (0x2000, 4298063) ∷ [] }
    ensures second { paid_over (speaker_part 212 2 2 2) 42 ≡ (0x2000, 4298063) ∷ [] }
    ensures third { paid_over (speaker_part 24 1 3 6) 43 ≡ (0x2000, 1111073) ∷ [] }
{}

/// A siTD IN of 300 bytes has a start-split, and two complete-splits that bring parts: the second is priced at the 112 bytes that are left.
/// None is dearer than the placement has for its microframe.
pub fn a_microphone_has_two_parts()
    ensures start { paid_with (Sitd (record { at = 0x2000; sitd = split_in false 300; settled = None })) 40 0 ≡ (0x2000, 644481) ∷ [] }
    ensures first { paid_with (Sitd (record { at = 0x2000; sitd = split_in true 300; settled = None })) 42 0 ≡ (0x2000, 4298063) ∷ [] }
    ensures second { paid_with (Sitd (record { at = 0x2000; sitd = record (split_in true 112) { c_prog = 4 }; settled = None })) 43 0
        ≡ (0x2000, 2821216) ∷ [] }
    ensures costs { map (cost_in placed_microphone.want placed_microphone.placement) (0 ∷ 1 ∷ 2 ∷ 3 ∷ 4 ∷ [])
        ≡ 644481 ∷ 0 ∷ 4298063 ∷ 4298063 ∷ 4298063 ∷ [] }
{}

/// It is the siTD of that endpoint, in hand with nothing paid. One of 301 bytes isn't in parts of its packet.
pub fn a_microphone_is_in_hand()
    ensures descriptor { IsSitdOf placed_microphone (split_in false 300) }
    ensures held { IsSitdInHand placed_microphone (record { at = 0x2000; sitd = split_in true 300; settled = None }) 42 0 }
    ensures longer { IsInParts (split_in true 301) 300 → ⊥ }
{}

/// A new siTD of 400 bytes has the fields of a speaker of packets of 400 bytes; one with the S-mask of another placement hasn't, nor has
/// one of 401 bytes.
pub fn a_new_sitd_has_its_fields()
    ensures fields { HaveSitdFields (new_sitd speaker_desc 0x0E 0 400 []) speaker_desc placed_speaker.placement }
    ensures other { HaveSitdFields (new_sitd speaker_desc 0x07 0 400 []) speaker_desc placed_speaker.placement → ⊥ }
    ensures longer { HaveSitdFields (new_sitd speaker_desc 0x0E 0 401 []) speaker_desc placed_speaker.placement → ⊥ }
{}

/// A line that asks the speaker for slots of 400 bytes asks for no more than its packets can have; one of 401 does.
pub fn slots_fit_packets()
    ensures fits { FitsSlotsOf speaker_desc (Command (Iso speaker_desc.name 1 400 0)) }
    ensures longer { FitsSlotsOf speaker_desc (Command (Iso speaker_desc.name 1 401 0)) → ⊥ }
{}
