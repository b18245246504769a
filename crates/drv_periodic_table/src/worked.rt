//! Worked rows of the definitions, which the check computes.
ghost use Rattle.std.specs.Prelude.{◌≡◌, true, false, [], ◌∷◌, Some, None};
ghost use Rattle.usb_base.specs.declared.packets.Way.TheVariants.{In, Out};
ghost use Rattle.bandwidth.specs.declared.placements.Placement.{Placement};
ghost use Rattle.drv_periodic_table.specs.Frames.{first_frame, frames_from};
ghost use Rattle.drv_periodic_table.specs.Periodic.{descriptor_name};
ghost use Rattle.drv_periodic_table.specs.Descriptors.{slots_in, slots_before, new_slot, new_sitd, parts_of, part_position};
ghost use Rattle.drv_periodic_table.specs.Descriptors.{is_served, errors_in, told_bytes, moved_beside, buffer_address};
ghost use Rattle.drv_periodic_table.specs.Samples.{behind_a_hub, a_split, in_words};
ghost use Rattle.itd_sitd.specs.Slot.{no_slot};
ghost use Rattle.itd_sitd.specs.Sitd.{sitd_words};

/// The frames of a command: with FRINDEX 5 and period 8 frame 2 is the first; one that goes on after frame 1,023 begins anew; phase 3 of 4.
pub fn frames_chosen()
    ensures first { first_frame (record { period = 8; phase = 0; smask = 1; cmask = 0 }) 5 None ≡ 2 }
    ensures after { first_frame (record { period = 8; phase = 0; smask = 1; cmask = 0 }) 5 (Some 1023) ≡ 0 }
    ensures phase { first_frame (record { period = 32; phase = 3; smask = 1; cmask = 0 }) 80 None ≡ 15 }
    ensures at_once { first_frame (record { period = 32; phase = 0; smask = 1; cmask = 0 }) 80 None ≡ 12 }
    ensures third { frames_from (record { period = 32; phase = 3; smask = 1; cmask = 0 }) 1019 2 ≡ 3 }
{}

/// The slots of a descriptor of period 2 with 1,003 bytes each, whose buffer is the page of block 256: the third begins at byte 2,006.
#[tactic(auto, unfolding(crate::specs::Descriptors::slots_before))]
pub fn slots_cut()
    ensures count { slots_in 0x55 ≡ 4 }
    ensures before { slots_before 0x55 4 ≡ 2 }
    ensures third { new_slot 0x55 1003 (256 ∷ []) 4 ≡ record no_slot { offset = 2006; pg = 0; length = 1003; active = true } }
    ensures between { new_slot 0x55 1003 (256 ∷ []) 3 ≡ no_slot }
    ensures second_page { buffer_address (256 ∷ 640 ∷ []) 4100 ≡ 20484 }
{}

/// The siTDs of device 3 behind port 1 of hub 9: an IN of 200 bytes, whose buffer begins in block 257, and an OUT of 400 in three parts.
#[tactic(auto, unfolding(itd_sitd::specs::Sitd::sitd_words))]
pub fn split_words()
    ensures to_host { sitd_words (new_sitd (behind_a_hub 1 In 200) 1 0x1C 200 (257 ∷ [])) ≡ 0 ∷ 0x81090103 ∷ 0x1C01 ∷ 0xC80080 ∷ 0x2020 ∷ 0 ∷ 1 ∷ [] }
    ensures to_device { sitd_words (new_sitd (behind_a_hub 2 Out 400) 7 0 400 (257 ∷ [])) ≡ 0 ∷ 0x1090203 ∷ 7 ∷ 0x1900080 ∷ 0x2020 ∷ 0xB ∷ 1 ∷ [] }
{}

/// The parts of an OUT: none, one, as many as 188 bytes take, and the most.
pub fn parts_cut()
    ensures empty { parts_of 0 ≡ 1 }
    ensures whole { parts_of 188 ≡ 1 }
    ensures rest { parts_of 189 ≡ 2 }
    ensures most { parts_of 1023 ≡ 6 }
    ensures all { part_position 1 ≡ 0 }
    ensures begins { part_position 2 ≡ 1 }
{}

/// What a siTD of 6 bytes tells in block 0, whose buffer is block 1: active with 6 bytes left; done with 2 left; done with a missed
/// microframe; done, and telling more bytes than it had.
#[tactic(auto, unfolding(itd_sitd::specs::Sitd::sitd_at, crate::specs::Descriptors::bytes_from))]
pub fn split_answers()
    ensures name { descriptor_name a_split 5 ≡ 164 }
    ensures active { is_served a_split (in_words (0 ∷ 0 ∷ 0 ∷ 0x60080 ∷ [])) 0 ≡ false }
    ensures done { is_served a_split (in_words (0 ∷ 0 ∷ 0 ∷ 0x20000 ∷ [])) 0 ≡ true }
    ensures good { errors_in a_split (in_words (0 ∷ 0 ∷ 0 ∷ 0x20000 ∷ [])) 0 ≡ 0 }
    ensures missed { errors_in a_split (in_words (0 ∷ 0 ∷ 0 ∷ 0x20004 ∷ [])) 0 ≡ 1 }
    ensures told { told_bytes a_split (in_words (0 ∷ 0 ∷ 0 ∷ 0x20000 ∷ 0 ∷ 0 ∷ 0 ∷ 0 ∷ 0x04030201 ∷ 0x0605 ∷ [])) 0 ≡ 1 ∷ 2 ∷ 3 ∷ 4 ∷ [] }
    ensures wild { moved_beside 6 7 ≡ 0 }
{}
