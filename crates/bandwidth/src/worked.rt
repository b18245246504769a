//! Worked values of the definitions, which the check computes.
ghost use Rattle.std.specs.Prelude.{◌≡◌, length, [], ◌∷◌, true, false, Some, None};
ghost use Rattle.usb_base.specs.Rules.{first_rules};
ghost use Rattle.bandwidth.specs.Placements.{allowed, allowed_by, run, every, first_in, frame_period, is_period};
ghost use Rattle.bandwidth.specs.Sums.{cost_in, laid_in, time_of, cost_at, is_active, is_translator, translator_of, frame_sum, tt_sum};
ghost use Rattle.bandwidth.specs.Worked.{mouse, keyboard, camera, speaker, stuffed_rules, placed, at_port};

/// Masks of microframes.
#[tactic(auto, unfolding(crate::specs::Placements::mask, crate::specs::Placements::first_in))]
pub fn masks()
    ensures all { every 1 0 ≡ 255 }
    ensures second { every 2 1 ≡ 170 }
    ensures fourth { every 4 2 ≡ 68 }
    ensures one { run 5 1 ≡ 32 }
    ensures four { run 2 6 ≡ 252 }
    ensures six { run 0 6 ≡ 63 }
    ensures first { first_in 252 ≡ 2 }
    ensures none { first_in 0 ≡ 8 }
{}

/// Periods, and the frames in which a placement is active.
pub fn periods()
    ensures one { is_period 1 ≡ true }
    ensures most { is_period 8192 ≡ true }
    ensures odd { is_period 12 ≡ false }
    ensures none { is_period 0 ≡ false }
    ensures short { frame_period 4 ≡ 1 }
    ensures long { frame_period 8192 ≡ 1024 }
    ensures active { is_active (placed 32 3 1 0) 7 ≡ true }
    ensures passive { is_active (placed 32 3 1 0) 8 ≡ false }
{}

/// Allowed placements.
#[tactic(auto, unfolding(crate::specs::Placements::mask, crate::specs::Placements::allowed))]
pub fn placements()
    ensures every_second { allowed (mouse 2) ≡ placed 2 0 85 0 ∷ placed 2 0 170 0 ∷ [] }
    ensures one_frame { length (allowed (mouse 8)) ≡ 8 }
    ensures four_frames { length (allowed (mouse 32)) ≡ 32 }
    ensures splits { allowed keyboard ≡ placed 8 0 1 28 ∷ placed 8 0 2 56 ∷ placed 8 0 4 112 ∷ placed 8 0 8 224 ∷ [] }
    ensures longest { allowed (camera 931) ≡ placed 8 0 1 252 ∷ [] }
    ensures too_long { allowed (camera 932) ≡ [] }
    ensures out { allowed (speaker 1023) ≡ placed 8 0 63 0 ∷ [] }
{}

/// Allowed placements by the rules: where the worst case of bit stuffing counts, an isochronous OUT of 188 bytes has five first
/// microframes for six, and one of 940 bytes one for two; every other endpoint has as many as before.
#[tactic(auto, unfolding(crate::specs::Placements::mask, crate::specs::Placements::first_in, crate::specs::Placements::allowed, crate::specs::Placements::allowed_by))]
pub fn stuffed_placements()
    ensures six { length (allowed_by first_rules (speaker 188)) ≡ 6 }
    ensures five { length (allowed_by stuffed_rules (speaker 188)) ≡ 5 }
    ensures two { allowed_by first_rules (speaker 940) ≡ placed 8 0 31 0 ∷ placed 8 0 62 0 ∷ [] }
    ensures one { allowed_by stuffed_rules (speaker 940) ≡ placed 8 0 31 0 ∷ [] }
    ensures most { allowed_by stuffed_rules (speaker 1023) ≡ placed 8 0 63 0 ∷ [] }
    ensures input { allowed_by stuffed_rules (camera 931) ≡ placed 8 0 1 252 ∷ [] }
    ensures interrupt { length (allowed_by stuffed_rules keyboard) ≡ 4 }
    ensures high { length (allowed_by stuffed_rules (mouse 8)) ≡ 8 }
{}

/// What placements cost.
#[tactic(auto, unfolding(crate::specs::Placements::first_in))]
pub fn costs()
    ensures start { cost_in keyboard (placed 8 0 1 28) 0 ≡ 927769 }
    ensures between { cost_in keyboard (placed 8 0 1 28) 1 ≡ 0 }
    ensures complete { cost_in keyboard (placed 8 0 1 28) 4 ≡ 2171320 }
    ensures laid { laid_in keyboard (placed 8 0 1 28) 0 ≡ 77 }
    ensures no_more { laid_in keyboard (placed 8 0 1 28) 1 ≡ 0 }
    ensures time { time_of keyboard ≡ 60231000 }
    ensures iso_start { cost_in (camera 931) (placed 8 0 1 252) 0 ≡ 644481 }
    ensures iso_complete { cost_in (camera 931) (placed 8 0 1 252) 7 ≡ 4298063 }
    ensures iso_laid { laid_in (camera 931) (placed 8 0 1 252) 4 ≡ 188 }
    ensures iso_no_more { laid_in (camera 931) (placed 8 0 1 252) 5 ≡ 0 }
    ensures part { cost_in (speaker 1023) (placed 8 0 63 0) 4 ≡ 4298063 }
    ensures last_part { cost_in (speaker 1023) (placed 8 0 63 0) 5 ≡ 2256723 }
    ensures last_laid { laid_in (speaker 1023) (placed 8 0 63 0) 5 ≡ 92 }
{}

/// The translator of an endpoint, and its sums: a port that has one of its own takes none of another's.
#[tactic(auto, unfolding(crate::specs::Placements::first_in))]
pub fn translators()
    ensures all { is_translator keyboard 9 0 ≡ true }
    ensures other_port { is_translator keyboard 9 1 ≡ false }
    ensures other_hub { is_translator keyboard 8 0 ≡ false }
    ensures high { is_translator (mouse 8) 9 0 ≡ false }
    ensures number { translator_of (at_port 3).want ≡ Some 147 }
    ensures no_number { translator_of (mouse 8) ≡ None }
    ensures one { tt_sum (at_port 1 ∷ at_port 2 ∷ []) 9 1 0 ≡ 77 }
    ensures together { tt_sum (at_port 1 ∷ at_port 1 ∷ []) 9 1 0 ≡ 154 }
    ensures times { frame_sum (at_port 1 ∷ at_port 2 ∷ []) 9 2 0 ≡ 60231000 }
{}
