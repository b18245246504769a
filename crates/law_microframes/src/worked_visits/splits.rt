//! Worked rows of what split transactions cost: frame 5 has the microframes 40 to 47 of FRINDEX.
ghost use Rattle.std.specs.Prelude.{◌≡◌, true, false, [], ◌∷◌, map, None};
ghost use Rattle.bandwidth.specs.Sums.{cost_in};
ghost use Rattle.bandwidth.specs.Worked.{keyboard, placed};
ghost use Rattle.hc_interrupt.specs.Samples.{split_in, erred, high_in};
ghost use Rattle.hc_iso.specs.Samples.{split_out};
ghost use Rattle.periodic_walk.specs.declared.state.Hand.TheVariants.{Queue, Sitd};
ghost use Rattle.periodic_walk.specs.Samples.{queue, at_hand};
ghost use Rattle.hc_iso.specs.declared.held.SitdTurn.TheVariants.{Work, Miss};
ghost use Rattle.hc_iso.specs.Sitd.{sitd_turn, after_part};
ghost use Rattle.claims_world.specs.FrameHeads.{IsAllowed};
ghost use Rattle.claims_world.specs.InTime.{is_late};
ghost use Rattle.claims_world.specs.Prices.{price_of};
ghost use Rattle.claims_world.specs.WithinLoad.{is_again};
ghost use Rattle.law_microframes.specs.time.SplitCharges.{IsSplitHeadOf, IsSplitInHand};
ghost use Rattle.law_microframes.specs.time.SitdParts.{IsInParts, IsSitdOf};
ghost use Rattle.law_microframes.specs.worked_visits.Samples.{placed_keyboard, placed_speaker, paid_with, again_with};

/// A keyboard below a hub may have its start-split in microframe 0 and its complete-splits in 2, 3 and 4, but not without a start-split,
/// nor with one in a microframe of the C-mask.
pub fn a_keyboard_is_allowed()
    ensures allowed { IsAllowed placed_keyboard }
    ensures without { IsAllowed (record placed_keyboard { placement = placed 8 0 0 0x1C }) → ⊥ }
    ensures twice { IsAllowed (record placed_keyboard { placement = placed 8 0 0x04 0x1C }) → ⊥ }
{}

/// Its queue head in hand in microframe 0, where nothing was paid, and in microframe 2, where a complete-split was made. Another C-mask
/// isn't its own.
pub fn a_keyboard_is_in_hand()
    ensures head { IsSplitHeadOf placed_keyboard (split_in false 0) }
    ensures start { IsSplitInHand placed_keyboard (queue (split_in false 0) 0 None) 40 0 }
    ensures complete { IsSplitInHand placed_keyboard (queue (erred true 4) 1 None) 42 2171320 }
    ensures other { IsSplitHeadOf (record placed_keyboard { placement = placed 8 0 0x01 0x38 }) (split_in false 0) → ⊥ }
{}

/// Its placement has the price of a start-split for microframe 0, that of a complete-split for 2, and nothing for 1.
pub fn a_keyboard_has_its_costs()
    ensures start { cost_in keyboard (placed 8 0 0x01 0x1C) 0 ≡ 927769 }
    ensures complete { cost_in keyboard (placed 8 0 0x01 0x1C) 2 ≡ 2171320 }
    ensures none { cost_in keyboard (placed 8 0 0x01 0x1C) 1 ≡ 0 }
{}

/// A keyboard's start-split in microframe 0 costs 0.9 microseconds, and its complete-split in microframe 2, which may bring 64 bytes, 2.2.
/// Both are in time.
pub fn a_keyboard_is_paid()
    ensures start { paid_with (Queue (queue (split_in false 0) 0 None)) 40 0 ≡ (0x2000, 927769) ∷ [] }
    ensures complete { paid_with (Queue (queue (split_in true 0) 0 None)) 42 0 ≡ (0x2000, 2171320) ∷ [] }
    ensures once { again_with (Queue (queue (split_in true 0) 0 None)) 42 ≡ 0 }
    ensures in_time { is_late (at_hand (Queue (queue (split_in true 0) 0 None)) 42 125000000) ≡ false }
{}

/// Where that complete-split was lost it is made again: the same price, less than 4 microseconds, but the payments are as they were.
pub fn a_lost_complete_split_is_made_again()
    ensures paid { paid_with (Queue (queue (erred true 4) 1 None)) 42 2171320 ≡ (0x2000, 2171320) ∷ [] }
    ensures again { again_with (Queue (queue (erred true 4) 1 None)) 42 ≡ 2171320 }
{}

/// A second transaction at high speed isn't made again: it is paid. And a split transaction without the time for it is late.
pub fn others_are_not()
    ensures second { is_again (Queue (queue high_in 1 None)) ≡ false }
    ensures paid { paid_with (Queue (queue high_in 1 None)) 40 2171320 ≡ (0x2000, 4342640) ∷ [] }
    ensures late { is_late (at_hand (Queue (queue (split_in true 0) 0 None)) 42 2000000) ≡ true }
{}

/// A siTD of 400 bytes is sent in three parts, of 188, 188 and 24 bytes, each in a microframe of its own; where the second wasn't sent, the
/// third isn't.
pub fn three_parts_are_paid()
    ensures first { (sitd_turn 1 (split_out 400 3 1) ≡ Work)
        × (price_of (Sitd (record { at = 0x2000; sitd = split_out 400 3 1; settled = None })) ≡ 4298063) }
    ensures second { (after_part 1 (split_out 400 3 1) ≡ record (split_out 212 2 2) { c_prog = 2 })
        × (price_of (Sitd (record { at = 0x2000; sitd = split_out 212 2 2; settled = None })) ≡ 4298063) }
    ensures third { (after_part 2 (record (split_out 212 2 2) { c_prog = 2 }) ≡ record (split_out 24 1 3) { c_prog = 6 })
        × (price_of (Sitd (record { at = 0x2000; sitd = split_out 24 1 3; settled = None })) ≡ 1111073) }
    ensures over { (after_part 3 (record (split_out 24 1 3) { c_prog = 6 })).active ≡ false }
    ensures missed { sitd_turn 3 (record (split_out 24 1 3) { c_prog = 2 }) ≡ Miss }
{}

/// The siTD is that of a placed endpoint of packets of 400 bytes; before the first part and before the second the bytes that are left stand
/// in the microframes of the placement, but not where one was marked and nothing sent. The placement has the price of a part of 188 bytes
/// for the microframes 1 and 2, that of one of 24 for 3, and nothing for 0.
pub fn a_speaker_has_its_parts()
    ensures descriptor { IsSitdOf placed_speaker (split_out 400 3 1) }
    ensures fresh { IsInParts (split_out 400 3 1) 400 }
    ensures second { IsInParts (record (split_out 212 2 2) { c_prog = 2 }) 400 }
    ensures marked { IsInParts (record (split_out 400 3 1) { c_prog = 2 }) 400 → ⊥ }
    ensures costs { map (cost_in placed_speaker.want placed_speaker.placement) (0 ∷ 1 ∷ 2 ∷ 3 ∷ []) ≡ 0 ∷ 4298063 ∷ 4298063 ∷ 1111073 ∷ [] }
{}

/// In microframe 1, where its first part comes, that part is late where less time is left than its price; in microframe 0 nothing is.
pub fn a_part_is_late()
    ensures late { is_late (at_hand (Sitd (record { at = 0x2000; sitd = split_out 400 3 1; settled = None })) 41 4000000) ≡ true }
    ensures in_time { is_late (at_hand (Sitd (record { at = 0x2000; sitd = split_out 400 3 1; settled = None })) 41 5000000) ≡ false }
    ensures rests { is_late (at_hand (Sitd (record { at = 0x2000; sitd = split_out 400 3 1; settled = None })) 40 4000000) ≡ false }
{}
