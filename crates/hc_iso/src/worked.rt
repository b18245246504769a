//! Worked rows of what a visit makes of an isochronous descriptor, which the check computes.
ghost use Rattle.std.specs.Prelude.{◌≡◌, ◌∷◌, [], true, false, None, Some};
ghost use Rattle.usb_base.specs.declared.packets.DataPart.TheVariants.{All, Begin, End};
ghost use Rattle.usb_base.specs.declared.packets.Pid.TheVariants as pids;
ghost use Rattle.usb_base.specs.declared.packets.Reply.TheVariants.{Silent, Bytes, Hand};
ghost use Rattle.usb_base.specs.declared.packets.Split.TheVariants.{Start, Complete};
ghost use Rattle.hc_iso.specs.declared.held.Heard.TheVariants.{Packet, TooLong, Wrong};
ghost use Rattle.hc_iso.specs.declared.held.IsoEnd.TheVariants as ends;
ghost use Rattle.hc_iso.specs.declared.held.SitdTurn.TheVariants.{Rest, Work, Miss};
ghost use Rattle.hc_iso.specs.declared.held.SplitHeard.TheVariants as heards;
ghost use Rattle.hc_iso.specs.declared.held.SplitOutcome.TheVariants.{Moved, Nothing, Failed};
ghost use Rattle.hc_iso.specs.Itd.{packets_of, fetched_itd, itd_transaction, heard_in, after_out, after_heard};
ghost use Rattle.hc_iso.specs.Sitd.{sitd_turn, sitd_transaction, split_heard, heard_outcome, after_complete, after_start, after_part, missed_sitd, moved_sitd, sitd_place};
ghost use Rattle.hc_iso.specs.WriteBack.{done_slot, slot_place};
ghost use Rattle.hc_iso.specs.Samples.{slot, itd, begun, split_in, split_out};

/// An OUT has as many packets as its bytes need, one at least and Multi at most; an IN at most Multi (EHCI 1.0, 3.3.3 and 4.7.1).
#[tactic(auto, unfolding(crate::specs::Itd::fetched_itd))]
pub fn packets_counted()
    ensures none { packets_of (itd false 0) (slot 0) ≡ 1 }
    ensures one { packets_of (itd false 1024) (slot 1024) ≡ 1 }
    ensures two { packets_of (itd false 1025) (slot 1025) ≡ 2 }
    ensures three { packets_of (itd false 2049) (slot 2049) ≡ 3 }
    ensures most { packets_of (itd false 4000) (slot 4000) ≡ 3 }
    ensures no_size { packets_of (record (itd false 7) { max = 0 }) (slot 7) ≡ 1 }
    ensures brought { packets_of (itd true 0) (slot 0) ≡ 3 }
    ensures copy { fetched_itd 0x1000 2 (itd false 2049) ≡ begun false 2049 }
    ensures other_microframe { (fetched_itd 0x1000 3 (itd false 2049)).slot.active ≡ false }
{}

/// An OUT of 2,049 bytes: MDATA, MDATA and DATA2, with 1,024, 1,024 bytes and 1 byte (USB 2.0, 5.9.2). Its answers aren't looked at.
#[tactic(auto, unfolding(crate::specs::Itd::after_out, crate::specs::WriteBack::done_slot))]
pub fn three_packets_out()
    ensures first { (itd_transaction (begun false 2049)).ask.toggle ≡ pids.Mdata }
    ensures first_bytes { (itd_transaction (begun false 2049)).bytes ≡ 1024 }
    ensures first_price { (itd_transaction (begun false 2049)).price.0 ≡ 20551712 }
    ensures second { (itd_transaction (after_out (begun false 2049))).ask.toggle ≡ pids.Mdata }
    ensures third { (itd_transaction (after_out (after_out (begun false 2049)))).ask.toggle ≡ pids.Data2 }
    ensures third_bytes { (itd_transaction (after_out (after_out (begun false 2049)))).bytes ≡ 1 }
    ensures not_ended { (after_out (after_out (begun false 2049))).ended ≡ None }
    ensures ended { (after_out (after_out (after_out (begun false 2049)))).ended ≡ Some ends.Whole }
    ensures moved { (after_out (after_out (after_out (begun false 2049)))).moved ≡ 2049 }
    ensures written { done_slot (after_out (after_out (after_out (begun false 2049)))) ≡ record (slot 2049) { active = false } }
    ensures two { (itd_transaction (after_out (begun false 1025))).ask.toggle ≡ pids.Data1 }
    ensures one { (itd_transaction (begun false 7)).ask.toggle ≡ pids.Data0 }
    ensures place { slot_place (slot 2049) ≡ 8176 }
{}

/// An IN begins with DATA2, DATA1 or DATA0, and counts down to DATA0 (USB 2.0, 5.9.2).
pub fn packets_in()
    ensures three { heard_in (begun true 3072) (Bytes pids.Data2 (1 ∷ 2 ∷ [])) ≡ Packet 2 2 }
    ensures two { heard_in (begun true 3072) (Bytes pids.Data1 []) ≡ Packet 1 0 }
    ensures one { heard_in (begun true 3072) (Bytes pids.Data0 (1 ∷ [])) ≡ Packet 0 1 }
    ensures next { heard_in (after_heard (begun true 3072) (Packet 2 1024)) (Bytes pids.Data1 (1 ∷ [])) ≡ Packet 1 1 }
    ensures last { heard_in (after_heard (after_heard (begun true 3072) (Packet 2 1024)) (Packet 1 1024)) (Bytes pids.Data0 (1 ∷ [])) ≡ Packet 0 1 }
    ensures again { heard_in (after_heard (begun true 3072) (Packet 2 1024)) (Bytes pids.Data2 (1 ∷ [])) ≡ Wrong }
    ensures left_out { heard_in (after_heard (begun true 3072) (Packet 2 1024)) (Bytes pids.Data0 (1 ∷ [])) ≡ Wrong }
    ensures above_multi { heard_in (record (begun true 3072) { rest = 2 }) (Bytes pids.Data2 (1 ∷ [])) ≡ Wrong }
    ensures too_long { heard_in (begun true 1) (Bytes pids.Data0 (1 ∷ 2 ∷ [])) ≡ TooLong }
    ensures long_and_wrong { heard_in (begun true 1) (Bytes pids.Mdata (1 ∷ 2 ∷ [])) ≡ Wrong }
    ensures silent { heard_in (begun true 3072) Silent ≡ Wrong }
    ensures handshake { heard_in (begun true 3072) (Hand pids.Nak) ≡ Wrong }
{}

/// What an IN leaves: the last packet ends the microframe, and so does an error.
#[tactic(auto, unfolding(crate::specs::WriteBack::done_slot))]
pub fn packets_in_left()
    ensures goes_on { (after_heard (begun true 3072) (Packet 2 1024)).ended ≡ None }
    ensures comes { (after_heard (begun true 3072) (Packet 2 1024)).rest ≡ 2 }
    ensures whole { (after_heard (begun true 3072) (Packet 0 5)).ended ≡ Some ends.Whole }
    ensures length { done_slot (after_heard (begun true 3072) (Packet 0 5)) ≡ record (slot 5) { active = false } }
    ensures wrong { (after_heard (begun true 3072) Wrong).ended ≡ Some ends.Failed }
    ensures wrong_slot { done_slot (after_heard (begun true 3072) Wrong) ≡ record (slot 0) { active = false; xact_err = true } }
    ensures long_slot { done_slot (after_heard (begun true 3072) TooLong) ≡ record (slot 0) { active = false; babble = true } }
    ensures kept { done_slot (after_heard (after_heard (begun true 3072) (Packet 2 1024)) Wrong) ≡ record (slot 1024) { active = false; xact_err = true } }
{}

/// What there is to do at a siTD (EHCI 1.0, 4.12.3.3): an IN's start-split and complete-splits, the parts of an OUT, and a miss.
#[tactic(auto, unfolding(hc_masks::specs::Masks::lacks))]
pub fn sitd_turns()
    ensures starts { sitd_turn 0 (split_in false 200) ≡ Work }
    ensures waits { sitd_turn 1 (split_in true 200) ≡ Rest }
    ensures first { sitd_turn 2 (split_in true 200) ≡ Work }
    ensures missed { sitd_turn 3 (split_in true 200) ≡ Miss }
    ensures second { sitd_turn 3 (record (split_in true 200) { c_prog = 0x04 }) ≡ Work }
    ensures no_start { sitd_turn 0 (split_in true 200) ≡ Rest }
    ensures no_complete { sitd_turn 2 (split_in false 200) ≡ Rest }
    ensures inactive { sitd_turn 0 (record (split_in false 200) { active = false }) ≡ Rest }
    ensures first_part { sitd_turn 1 (split_out 400 3 1) ≡ Work }
    ensures first_part_late { sitd_turn 2 (split_out 400 3 1) ≡ Rest }
    ensures second_part { sitd_turn 2 (record (split_out 212 2 2) { c_prog = 0x02 }) ≡ Work }
    ensures part_missed { sitd_turn 3 (record (split_out 212 2 2) { c_prog = 0x02 }) ≡ Miss }
{}

/// The transactions of a siTD, what goes out with them and their prices (USB 2.0, 5.11.3).
pub fn sitd_transactions()
    ensures start { (sitd_transaction (split_in false 200)).ask.split ≡ Start 9 2 All }
    ensures start_price { (sitd_transaction (split_in false 200)).price.0 ≡ 644481 }
    ensures complete { (sitd_transaction (split_in true 200)).ask.split ≡ Complete 9 2 }
    ensures complete_limit { (sitd_transaction (split_in true 200)).ask.limit ≡ 200 }
    ensures complete_bytes { (sitd_transaction (split_in true 200)).bytes ≡ 0 }
    ensures part { (sitd_transaction (split_out 400 3 1)).ask.split ≡ Start 9 2 Begin }
    ensures part_bytes { (sitd_transaction (split_out 400 3 1)).bytes ≡ 188 }
    ensures last_part { (sitd_transaction (split_out 24 1 3)).ask.split ≡ Start 9 2 End }
    ensures last_bytes { (sitd_transaction (split_out 24 1 3)).bytes ≡ 24 }
{}

/// What a complete-split of a siTD heard, and what it comes to (4.12.3.3.2).
pub fn sitd_answers()
    ensures part { split_heard false 200 (Bytes pids.Mdata (1 ∷ 2 ∷ [])) ≡ heards.Data false 2 }
    ensures last { split_heard true 200 (Bytes pids.Data0 (1 ∷ [])) ≡ heards.Data true 1 }
    ensures too_long { split_heard false 1 (Bytes pids.Data0 (1 ∷ 2 ∷ [])) ≡ heards.TooLong }
    ensures later { split_heard false 200 (Hand pids.Nyet) ≡ heards.Later }
    ensures too_late { split_heard true 200 (Hand pids.Nyet) ≡ heards.Wrong }
    ensures error { split_heard false 200 (Hand pids.Err) ≡ heards.Error }
    ensures other_data { split_heard false 200 (Bytes pids.Data1 []) ≡ heards.Wrong }
    ensures silent { split_heard false 200 Silent ≡ heards.Wrong }
    ensures moved { heard_outcome (heards.Data true 1) ≡ Moved 1 }
    ensures nothing { heard_outcome heards.Later ≡ Nothing }
    ensures failed { heard_outcome heards.Wrong ≡ Failed }
{}

/// What a transaction leaves of a siTD (4.12.3.3).
#[tactic(auto, unfolding(crate::specs::Sitd::after_start, crate::specs::Sitd::after_complete, crate::specs::Sitd::after_part, crate::specs::Sitd::missed_sitd))]
pub fn sitds_left()
    ensures started { after_start (split_in false 200) ≡ split_in true 200 }
    ensures part { after_complete 2 (heards.Data false 188) (split_in true 200) ≡ record (split_in true 12) { c_prog = 0x04 } }
    ensures whole { after_complete 3 (heards.Data true 12) (record (split_in true 12) { c_prog = 0x04 }) ≡ record (split_in true 0) { c_prog = 0x0C; active = false } }
    ensures later { after_complete 2 heards.Later (split_in true 200) ≡ record (split_in true 200) { c_prog = 0x04 } }
    ensures error { after_complete 2 heards.Error (split_in true 200) ≡ record (split_in true 200) { c_prog = 0x04; err = true; active = false } }
    ensures wrong { after_complete 2 heards.Wrong (split_in true 200) ≡ record (split_in true 200) { c_prog = 0x04; xact_err = true; active = false } }
    ensures too_long { after_complete 2 heards.TooLong (split_in true 200) ≡ record (split_in true 200) { c_prog = 0x04; babble = true; active = false } }
    ensures begin { after_part 1 (split_out 400 3 1) ≡ record (split_out 212 2 2) { c_prog = 0x02 } }
    ensures middle { after_part 2 (record (split_out 212 2 2) { c_prog = 0x02 }) ≡ record (split_out 24 1 3) { c_prog = 0x06 } }
    ensures of_four { (after_part 1 (split_out 600 4 1)).tp ≡ 2 }
    ensures end { after_part 3 (record (split_out 24 1 3) { c_prog = 0x06 }) ≡ record (split_out 0 0 3) { c_prog = 0x0E; active = false } }
    ensures missed { missed_sitd (split_in true 200) ≡ record (split_in true 200) { missed = true; active = false } }
{}

/// The place in the buffer: the second page is the last (3.4.4).
#[tactic(auto, unfolding(crate::specs::Sitd::moved_sitd))]
pub fn sitds_moved()
    ensures within { moved_sitd 15 (split_in true 200) ≡ record (split_in true 200) { offset = 0xFFF } }
    ensures to_the_end { moved_sitd 16 (split_in true 200) ≡ record (split_in true 200) { offset = 0; page_select = true } }
    ensures place { sitd_place (moved_sitd 20 (split_in true 200)) ≡ 4100 }
    ensures in_the_last { moved_sitd 188 (record (split_in true 200) { page_select = true }) ≡ record (split_in true 200) { offset = 0x0AC; page_select = true } }
{}
