//! Worked rows of the definitions, which the check computes.
ghost use Rattle.std.specs.Prelude.{◌≡◌, ℕ, ◌++◌, [], ◌∷◌, map, length, replicate, true, false, take, drop};
ghost use Rattle.usb_base.specs.declared.packets.DataPart.TheVariants as Parts;
ghost use Rattle.usb_base.specs.declared.packets.Pid.TheVariants as Packets;
ghost use Rattle.usb_base.specs.declared.packets.Reply.TheVariants.{Silent, Bytes, Hand};
ghost use Rattle.hub_keys.specs.Keys.{key_of};
ghost use Rattle.tt_pipeline.specs.declared.entry.Exchange.TheVariants.{Ahead, Made};
ghost use Rattle.tt_pipeline.specs.declared.rows.StartRow.TheVariants.{Enters, Joins, Forgotten};
ghost use Rattle.tt_pipeline.specs.Answers.{complete_answer, completed};
ghost use Rattle.tt_pipeline.specs.Starting.{start_row, started};
ghost use Rattle.tt_pipeline.specs.Work.{called_for};
ghost use Rattle.tt_pipeline.specs.Worked.{interrupt_in, iso_in, iso_out, three, three_stuffed, after_one, after_more, out_in_parts};
ghost use Rattle.tt_pipeline.specs.Working.{budget, used_by, worked_with};

/// Two interrupts of 64 bytes and one of 8, started in one microframe, take nothing in the next and 175 byte-times in the
/// one after it; the results are there then, and are given again.
pub fn three_interrupts()
    ensures first { used_by budget three ≡ 0 }
    ensures second { used_by budget (after_one Silent three) ≡ 175 }
    ensures third { used_by budget (after_more 2 Silent three) ≡ 0 }
    ensures early { complete_answer (key_of (interrupt_in 3 8)) (after_one (Bytes Packets.Data0 (7 ∷ [])) three) ≡ Hand Packets.Nyet }
    ensures there { complete_answer (key_of (interrupt_in 3 8)) (after_more 2 (Bytes Packets.Data0 (7 ∷ [])) three)
        ≡ Bytes Packets.Data0 (7 ∷ []) }
    ensures again { complete_answer (key_of (interrupt_in 3 8)) (completed (key_of (interrupt_in 3 8)) (after_more 2 (Bytes Packets.Data0 (7 ∷ [])) three))
        ≡ Bytes Packets.Data0 (7 ∷ []) }
    ensures silent { complete_answer (key_of (interrupt_in 3 8)) (after_more 2 Silent three) ≡ Hand Packets.Err }
    ensures other { complete_answer (key_of (interrupt_in 4 8)) (after_more 2 Silent three) ≡ Hand Packets.Nyet }
    ensures dropped { worked_with 8 [] three ≡ [] }
{}

/// A start of a key with an entry replaces it, and stands last.
pub fn replaced()
    ensures row { start_row (interrupt_in 1 8) 0 three ≡ Enters }
    ensures order { map (λ e. e.key.ep) (started (interrupt_in 1 8) [] 0 three) ≡ 2 ∷ 3 ∷ 1 ∷ [] }
    ensures called { map called_for (after_more 2 Silent (started (interrupt_in 1 8) [] 0 three)) ≡ 77 ∷ 21 ∷ 21 ∷ [] }
{}

/// 300 bytes of an isochronous IN: 179 come with the first 188 byte-times, the rest with the other 121.
pub fn isochronous_in()
    ensures first { complete_answer (key_of (iso_in 1 300)) (after_more 2 (Bytes Packets.Data0 (replicate 300 5)) (started (iso_in 1 300) [] 0 []))
        ≡ Bytes Packets.Mdata (replicate 179 5) }
    ensures nothing_new { complete_answer (key_of (iso_in 1 300)) (completed (key_of (iso_in 1 300)) (after_more 2 (Bytes Packets.Data0 (replicate 300 5)) (started (iso_in 1 300) [] 0 [])))
        ≡ Hand Packets.Nyet }
    ensures last { complete_answer (key_of (iso_in 1 300)) (after_one Silent (completed (key_of (iso_in 1 300)) (after_more 2 (Bytes Packets.Data0 (replicate 300 5)) (started (iso_in 1 300) [] 0 []))))
        ≡ Bytes Packets.Data0 (replicate 121 5) }
    ensures whole { complete_answer (key_of (iso_in 1 300)) (after_more 3 (Bytes Packets.Data0 (replicate 300 5)) (started (iso_in 1 300) [] 0 []))
        ≡ Bytes Packets.Data0 (replicate 300 5) }
    ensures none { complete_answer (key_of (iso_in 1 300)) (after_more 2 (Bytes Packets.Data0 []) (started (iso_in 1 300) [] 0 []))
        ≡ Bytes Packets.Data0 [] }
    ensures gone { complete_answer (key_of (iso_in 1 300)) (completed (key_of (iso_in 1 300)) (after_more 2 (Bytes Packets.Data0 []) (started (iso_in 1 300) [] 0 [])))
        ≡ Hand Packets.Nyet }
    ensures silent { complete_answer (key_of (iso_in 1 300)) (after_more 2 Silent (started (iso_in 1 300) [] 0 [])) ≡ Hand Packets.Err }
{}

/// An isochronous OUT of 400 bytes in three parts, which come in three microframes. It calls for 188, 376 and 409
/// byte-times, and is sent with the last; without its middle part it is sent short, without its last never.
pub fn isochronous_out()
    ensures two { map (λ e. e.done) (after_one Silent out_in_parts) ≡ 376 ∷ [] }
    ensures unsent { map (λ e. e.exchange) (after_one Silent out_in_parts) ≡ Ahead (replicate 188 1 ++ replicate 188 2 ++ replicate 24 3) ∷ [] }
    ensures sent { map (λ e. e.exchange) (after_more 2 Silent out_in_parts) ≡ Made Silent ∷ [] }
    ensures lost_middle { map called_for (after_more 2 Silent (started (iso_out Parts.End 1) (replicate 24 3) 0 (after_more 2 Silent (started (iso_out Parts.Begin 1) (replicate 188 1) 0 []))))
        ≡ 221 ∷ [] }
    ensures lost_last { map (λ e. e.exchange) (after_more 5 Silent (started (iso_out Parts.Begin 1) (replicate 188 1) 0 []))
        ≡ Ahead (replicate 188 1) ∷ [] }
    ensures no_entry { start_row (iso_out Parts.Middle 1) 188 [] ≡ Forgotten }
    ensures fits { start_row (iso_out Parts.End 1) 836 (started (iso_out Parts.Begin 1) (replicate 188 1) 0 []) ≡ Joins }
    ensures too_long { start_row (iso_out Parts.End 1) 837 (started (iso_out Parts.Begin 1) (replicate 188 1) 0 []) ≡ Forgotten }
{}

/// With as many stuffed bits as there are at most the three interrupts call for 89, 89 and 24 byte-times: 188 are worked in
/// one microframe and 14 in the next, and the last result is there then.
pub fn stuffed_interrupts()
    ensures called { map called_for (after_more 2 Silent (three_stuffed 6)) ≡ 89 ∷ 89 ∷ 24 ∷ [] }
    ensures first { used_by budget (three_stuffed 6) ≡ 0 }
    ensures second { used_by budget (after_one Silent (three_stuffed 6)) ≡ 188 }
    ensures early { complete_answer (key_of (interrupt_in 3 8)) (after_more 2 (Bytes Packets.Data0 (7 ∷ [])) (three_stuffed 6))
        ≡ Hand Packets.Nyet }
    ensures third { used_by budget (after_more 2 Silent (three_stuffed 6)) ≡ 14 }
    ensures there { complete_answer (key_of (interrupt_in 3 8)) (after_more 3 (Bytes Packets.Data0 (7 ∷ [])) (three_stuffed 6))
        ≡ Bytes Packets.Data0 (7 ∷ []) }
{}

/// 300 bytes of an isochronous IN with as many stuffed bits as there are at most: 188 of its 360 byte-times have brought 152.
pub fn stuffed_isochronous_in()
    ensures called { map called_for (after_more 2 Silent (started (iso_in 1 300) [] 6 [])) ≡ 360 ∷ [] }
    ensures first { complete_answer (key_of (iso_in 1 300)) (after_more 2 (Bytes Packets.Data0 (replicate 300 5)) (started (iso_in 1 300) [] 6 []))
        ≡ Bytes Packets.Mdata (replicate 152 5) }
    ensures last { complete_answer (key_of (iso_in 1 300)) (after_more 3 (Bytes Packets.Data0 (replicate 300 5)) (started (iso_in 1 300) [] 6 []))
        ≡ Bytes Packets.Data0 (replicate 300 5) }
{}
