//! Worked rows of masks, which the check computes.
ghost use Rattle.std.specs.Prelude.{◌≡◌, true, false};
ghost use Rattle.hc_masks.specs.Masks.{has, is_after_first, is_first, is_last, lacks, with_bit};

/// A mask of the microframes 2, 3 and 4, as a placement has it whose start-split comes in microframe 0.
#[tactic(auto, unfolding(crate::specs::Masks::lacks))]
pub fn three_complete_splits()
    ensures second { has 0x1C 2 ≡ true }
    ensures sixth { has 0x1C 6 ≡ false }
    ensures first { is_first 0x1C 2 ≡ true }
    ensures not_first { is_first 0x1C 3 ≡ false }
    ensures no_member { is_first 0x1C 1 ≡ false }
    ensures last { is_last 0x1C 4 ≡ true }
    ensures not_last { is_last 0x1C 3 ≡ false }
    ensures past { is_last 0x1C 5 ≡ false }
    ensures at_the_start { is_after_first 0x01 0 ≡ false }
    ensures after_the_start { is_after_first 0x01 1 ≡ true }
    ensures of_none { is_after_first 0x00 7 ≡ false }
    ensures nothing_lacks { lacks 0x1C 0x00 2 ≡ false }
    ensures second_lacks { lacks 0x1C 0x00 3 ≡ true }
    ensures third_lacks { lacks 0x1C 0x14 5 ≡ true }
    ensures all_done { lacks 0x1C 0x1C 7 ≡ false }
    ensures another_done { lacks 0x1C 0x20 4 ≡ true }
    ensures done { with_bit 0x04 3 ≡ 0x0C }
    ensures done_again { with_bit 0x0C 3 ≡ 0x0C }
{}
