//! Worked rows of what a visit makes of an interrupt queue head, which the check computes.
ghost use Rattle.std.specs.Prelude.{◌≡◌, [], true, false, Some};
ghost use Rattle.usb_base.specs.declared.endpoints.EndCause.TheVariants as causes;
ghost use Rattle.usb_base.specs.declared.packets.DataPart.TheVariants.{All};
ghost use Rattle.usb_base.specs.declared.packets.Pid.TheVariants as pids;
ghost use Rattle.usb_base.specs.declared.packets.Reply.TheVariants.{Silent, Hand};
ghost use Rattle.usb_base.specs.declared.packets.Split.TheVariants.{Plain, Start, Complete};
ghost use Rattle.link_words.specs.declared.kinds.QtdLink.TheVariants.{To};
ghost use Rattle.toggle_error.specs.declared.host.Outcome.TheVariants.{Moved, Discarded, Nak, Wait, Error, Halt};
ghost use Rattle.hc_copy.specs.Samples.{moving, done};
ghost use Rattle.hc_interrupt.specs.declared.turns.Turn.TheVariants.{Rest, Work, Miss, Take};
ghost use Rattle.hc_interrupt.specs.Turns.{tag_of, is_missed, turn_of, planned, is_last_of};
ghost use Rattle.hc_interrupt.specs.Copies.{with_split, interrupt_copy, missed_queue, goes_on, again_copy};
ghost use Rattle.hc_interrupt.specs.Samples.{high_in, split_in, erred, held};

/// A high-speed queue head works in the microframes of its S-mask alone, and takes a qTD in these alone (EHCI 1.0, 4.10.3).
pub fn high_speed_turns()
    ensures works { turn_of 40 high_in ≡ Work }
    ensures works_again { turn_of 44 high_in ≡ Work }
    ensures rests { turn_of 41 high_in ≡ Rest }
    ensures takes { turn_of 40 (record (done 0 true) { smask = 0x11 }) ≡ Take (To 0x1080) }
    ensures takes_later { turn_of 42 (record (done 0 true) { smask = 0x11 }) ≡ Rest }
    ensures halted { turn_of 40 (record high_in { token = record moving { active = false; halted = true } }) ≡ Rest }
{}

/// The start-split comes in the microframe of the S-mask, each complete-split in its microframe of the C-mask (4.12.2.4).
#[tactic(auto, unfolding(hc_masks::specs::Masks::lacks))]
pub fn split_turns()
    ensures starts { turn_of 40 (split_in false 0) ≡ Work }
    ensures starts_not { turn_of 42 (split_in false 0) ≡ Rest }
    ensures first { turn_of 42 (split_in true 0x00) ≡ Work }
    ensures second { turn_of 43 (split_in true 0x04) ≡ Work }
    ensures third { turn_of 44 (split_in true 0x0C) ≡ Work }
    ensures before_the_first { turn_of 41 (split_in true 0x00) ≡ Rest }
    ensures after_the_last { turn_of 45 (split_in true 0x1C) ≡ Rest }
    ensures last { is_last_of 44 (split_in true 0x0C) ≡ true }
    ensures not_last { is_last_of 43 (split_in true 0x04) ≡ false }
    ensures halted { turn_of 42 (record (split_in true 0x00) { token = record moving { split_state = true; halted = true } }) ≡ Rest }
{}

/// Each of the three tests finds a miss: another frame; a later frame whose tag is equal, before its complete-splits; and a complete-split
/// that wasn't made (4.12.2.4.1).
#[tactic(auto, unfolding(hc_masks::specs::Masks::lacks))]
pub fn misses()
    ensures another_frame { turn_of 50 (split_in true 0x00) ≡ Miss }
    ensures another_tag { tag_of 50 ≡ 6 }
    ensures equal_tag { tag_of 296 ≡ 5 }
    ensures equal_tag_at_the_start { turn_of 296 (split_in true 0x00) ≡ Miss }
    ensures lacks_the_first { turn_of 43 (split_in true 0x00) ≡ Miss }
    ensures lacks_the_second { turn_of 44 (split_in true 0x04) ≡ Miss }
    ensures lacks_the_last { turn_of 47 (split_in true 0x0C) ≡ Miss }
    ensures outside_the_mask { is_missed 45 (split_in true 0x1C) ≡ false }
{}

/// A start-split begins its frame anew; a complete-split marks its microframe (4.12.2.4.2).
#[tactic(auto, unfolding(crate::specs::Copies::with_split))]
pub fn splits_marked()
    ensures plain { with_split 40 Plain high_in ≡ high_in }
    ensures start { with_split 48 (Start 9 2 All) (split_in true 0x1C) ≡ record (split_in true 0x00) { frame_tag = 6 } }
    ensures complete { with_split 43 (Complete 9 2) (split_in true 0x04) ≡ split_in true 0x0C }
{}

/// What a start-split and a silent complete-split leave: the start-split is one, whatever answers, and each silence is one error less.
#[tactic(auto, unfolding(crate::specs::Copies::with_split, hc_copy::specs::Overlay::settled_queue))]
pub fn copies_left()
    ensures started { (interrupt_copy 40 (planned (split_in false 7)) [] Silent (held (split_in false 7))).queue_head ≡ split_in true 0x00 }
    ensures waits { (interrupt_copy 40 (planned (split_in false 7)) [] Silent (held (split_in false 7))).settled ≡ Some Wait }
    ensures silent { (interrupt_copy 42 (planned (split_in true 0x00)) [] Silent (held (split_in true 0x00))).queue_head ≡ erred true 0x04 }
    ensures error { (interrupt_copy 42 (planned (split_in true 0x00)) [] Silent (held (split_in true 0x00))).settled ≡ Some Error }
    ensures late { (interrupt_copy 44 (planned (split_in true 0x0C)) [] (Hand pids.Nyet) (held (split_in true 0x0C))).queue_head ≡ erred false 0x1C }
{}

/// A miss halts the qTD (4.12.2.4.1).
#[tactic(auto, unfolding(crate::specs::Copies::missed_queue))]
pub fn missed_halts()
    ensures { missed_queue (split_in true 0x04) ≡ record (split_in true 0x04) { token = record moving { split_state = true; missed = true; halted = true; active = false } } }
{}

/// At high speed a visit goes on after a full packet, up to Mult transactions, of which 0 counts as 1 (3.6.2, 4.10.3). Below it, it goes
/// on after a complete-split that had no answer of use, while the qTD is active (4.12.2.4.2).
#[tactic(auto, unfolding(hc_copy::specs::Overlay::moved))]
pub fn visits_go_on()
    ensures full { goes_on 1 high_in (Moved 64) ≡ true }
    ensures full_again { goes_on 2 high_in (Moved 64) ≡ true }
    ensures third { goes_on 3 high_in (Moved 64) ≡ false }
    ensures short { goes_on 1 high_in (Moved 63) ≡ false }
    ensures dropped { goes_on 1 high_in Discarded ≡ false }
    ensures nak { goes_on 1 high_in Nak ≡ false }
    ensures error { goes_on 1 high_in Error ≡ false }
    ensures ended { goes_on 1 (record high_in { token = record moving { active = false } }) (Moved 64) ≡ false }
    ensures none_is_one { goes_on 1 (record high_in { mult = 0 }) (Moved 64) ≡ false }
    ensures silent { goes_on 1 (split_in true 0x04) Error ≡ true }
    ensures silent_long { goes_on 200 (split_in true 0x04) Error ≡ true }
    ensures later { goes_on 1 (split_in true 0x04) Wait ≡ false }
    ensures cleared { goes_on 1 (split_in false 0x04) Error ≡ false }
    ensures halted { goes_on 1 (split_in true 0x04) (Halt causes.Error) ≡ false }
    ensures place { (again_copy (Moved 64) (held high_in)).queue_head ≡ record high_in { offset = 61; token = record moving { c_page = 1 } } }
{}
