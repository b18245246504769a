//! Worked rows of the definitions, which the check computes: runs that meet the premises, and some that don't.
ghost use Rattle.std.specs.Prelude.{◌≡◌, ℕ, map, [], ◌∷◌};
ghost use Rattle.usb_base.specs.declared.packets.DataPart.TheVariants.{Begin};
ghost use Rattle.usb_base.specs.declared.packets.Pid.TheVariants.{Data0, Nyet};
ghost use Rattle.usb_base.specs.declared.packets.Reply.TheVariants.{Silent, Bytes, Hand};
ghost use Rattle.hub_keys.specs.Keys.{key_of};
ghost use Rattle.tt_pipeline.specs.declared.entry.Exchange.TheVariants.{Made};
ghost use Rattle.tt_pipeline.specs.declared.rows.AnswerRow.TheVariants.{Last};
ghost use Rattle.tt_pipeline.specs.Answers.{answer_row, complete_answer};
ghost use Rattle.tt_pipeline.specs.Starting.{without};
ghost use Rattle.tt_pipeline.specs.Work.{called_for};
ghost use Rattle.tt_pipeline.specs.Worked.{interrupt_in, iso_in, iso_out};
ghost use Rattle.tt_pipeline.specs.Working.{used_by};
ghost use Rattle.law_translator.specs.Frames.{Replan, entries_of, run, opening};
ghost use Rattle.law_translator.specs.Plans.{Fits};
ghost use Rattle.claims_world.specs.Plans.{laid};
ghost use Rattle.law_translator.specs.Premises.{Fair, FairAll};
ghost use Rattle.claims_world.specs.KeepsUp.{AllKeepUp};
ghost use Rattle.claims_world.specs.Answered.{end_of};
ghost use Rattle.law_translator.specs.Worked.{full_plan, full_starts, full_run, run_of, heard_from, heard_after, stuffed_run, more_plan, replanned_run, too_full, too_full_run, kept_over, in_plan, in_run, out_plan, out_run};

/// Three interrupts that take all 188 byte-times of a microframe: the premises hold, and the answers are there at the
/// begin of the second microframe after.
pub fn all_188_are_used()
    ensures fits { Fits full_plan }
    ensures fair { FairAll 0 full_run (opening full_plan) }
    ensures used { used_by 188 (entries_of (run full_starts (opening full_plan)).watched) ≡ 188 }
    ensures first { heard_after full_run (interrupt_in 1 64) ≡ Bytes Data0 (7 ∷ []) }
    ensures last { heard_after full_run (interrupt_in 3 21) ≡ Bytes Data0 (7 ∷ []) }
{}

/// An isochronous OUT whose middle part is lost: the premises hold, one microframe brought no part, and the 221
/// byte-times that its two parts call for are all worked, which is 188 less than what is laid.
pub fn a_lost_part()
    ensures fits { Fits out_plan }
    ensures fair { FairAll 0 out_run (opening out_plan) }
    ensures gaps { map (λ w. w.gaps) (run out_run (opening out_plan)).watched ≡ 1 ∷ [] }
    ensures called { map (λ w. called_for w.entry) (run out_run (opening out_plan)).watched ≡ 221 ∷ [] }
    ensures done { map (λ w. w.entry.done) (run out_run (opening out_plan)).watched ≡ 221 ∷ [] }
    ensures laid { laid out_plan (key_of (iso_out Begin 1)) 4 ≡ 409 }
    ensures sent { map (λ w. w.entry.exchange) (run out_run (opening out_plan)).watched ≡ Made Silent ∷ [] }
{}

/// With stuffed bits the same starts call for 89, 89 and 39 byte-times, 217 of at most 219: the last answer isn't there at
/// the begin of the second microframe after, and is at that of the third.
pub fn stuffed_bits()
    ensures fair { FairAll 6 stuffed_run (opening full_plan) }
    ensures unfair { FairAll 0 (run_of 6) (opening full_plan) → ⊥ }
    ensures called { map (λ w. called_for w.entry) (run (run_of 6) (opening full_plan)).watched ≡ 89 ∷ 89 ∷ 39 ∷ [] }
    ensures late { heard_after (run_of 6) (interrupt_in 3 21) ≡ Hand Nyet }
    ensures there { heard_after stuffed_run (interrupt_in 3 21) ≡ Bytes Data0 (7 ∷ []) }
    ensures not_yet { AllKeepUp full_plan 2 (run (run_of 6) (opening full_plan)).watched → ⊥ }
{}

/// An endpoint is placed in mid-frame, and its interrupt starts and is answered in this frame; a plan that moves what has an
/// entry isn't one that may come.
pub fn a_plan_that_changes()
    ensures fits { Fits (more_plan 0) }
    ensures fair { FairAll 0 replanned_run (opening full_plan) }
    ensures there { heard_after replanned_run (interrupt_in 4 64) ≡ Bytes Data0 (7 ∷ []) }
    ensures unfair { Fair 0 (Replan (more_plan 2)) (run full_starts (opening full_plan)) → ⊥ }
{}

/// An isochronous IN of 200 bytes has its last bytes in the second microframe after its last laid one.
pub fn the_last_bytes()
    ensures fits { Fits in_plan }
    ensures fair { FairAll 0 in_run (opening in_plan) }
    ensures end { end_of in_plan (key_of (iso_in 1 200)) ≡ 3 }
    ensures now { (run in_run (opening in_plan)).now ≡ 4 }
    ensures last { map (λ w. answer_row w.entry) (run in_run (opening in_plan)).watched ≡ Last ∷ [] }
{}

/// What breaks the premises, and then what is promised: more than 188 byte-times are laid in a microframe, and the last entry
/// has had 34 of its 77.
pub fn more_than_188()
    ensures unfit { Fits too_full → ⊥ }
    ensures done { map (λ w. w.entry.done) (run too_full_run (opening too_full)).watched ≡ 77 ∷ 77 ∷ 34 ∷ [] }
    ensures late { AllKeepUp too_full 2 (run too_full_run (opening too_full)).watched → ⊥ }
{}

/// An entry that was kept over a frame's end takes the room of the new ones, whose starts all follow the plan.
pub fn an_entry_kept_over_a_frames_end()
    ensures fair { FairAll 0 full_run kept_over }
    ensures used { used_by 188 (entries_of (run full_starts kept_over).watched) ≡ 188 }
    ensures none { heard_from full_run kept_over (interrupt_in 1 64) ≡ Hand Nyet }
    ensures late { AllKeepUp full_plan 2 (run full_run kept_over).watched → ⊥ }
{}

/// A start that forgets the entry of another key: its answer, which the run has, is gone.
pub fn a_start_that_forgets_another_key()
    ensures there { heard_after full_run (interrupt_in 2 64) ≡ Bytes Data0 (7 ∷ []) }
    ensures gone { complete_answer (key_of (interrupt_in 2 64))
        (without (key_of (interrupt_in 2 64)) (entries_of (run full_run (opening full_plan)).watched)) ≡ Hand Nyet }
{}
