//! Worked rows of split transactions that are due as a microframe begins, which the check computes: a full-speed keyboard behind a hub in
//! microframes 0 and 2 of frame 128 (EHCI 1.0, 3.6, 4.6, 4.10 and 4.12.2.4).
ghost use Rattle.std.specs.Prelude.{◌≡◌, [], ◌∷◌, map};
ghost use Rattle.toggle_error.specs.declared.host.Outcome.TheVariants.{Wait};
ghost use Rattle.qh_qtd.specs.declared.queue_head.Qh.{Qh};
ghost use Rattle.hc_core.specs.declared.controller.ControllerRow.TheVariants.{Begin};
ghost use Rattle.bus_wire.specs.Bus.{fixed_of};
ghost use Rattle.bus_world.specs.World.{controller_row};
ghost use Rattle.claims_world.specs.DueAtBegin.{IsUncancelled};
ghost use Rattle.claims_world.specs.QueuesMade.{QueueMade, HasMade};
ghost use Rattle.claims_world.specs.SplitsAtBegin.{IsStartDue, IsStarted, IsCompleteDue};
ghost use Rattle.claims_world.specs.Visits.{IsPastFrames};
ghost use Rattle.law_world.specs.memory.Samples.{keyboard_and_disk, keyboard_place};
ghost use Rattle.law_microframes.specs.due.repeats.Samples.{waiting, pressed, answer_lost};
ghost use Rattle.law_microframes.specs.translators.Results.{IsAnswerDue, IsResultDue, IsTaken};
ghost use Rattle.law_reports.specs.due_at_begin.SplitSamples.{starting, started_in, made_in, its_queue, its_head, too_late};
ghost use Rattle.law_reports.specs.due_at_begin.SplitsFollow.{IsWaitingIn, IsLeftWaiting, IsOutOfHand, IsItsTurn};

/// The Begin of microframe 0 leaves a world in which the keyboard's start-split is due; it isn't in microframe 2.
pub fn a_start_split_is_due()
    ensures begins { controller_row starting ≡ Begin }
    ensures due { IsStartDue (fixed_of keyboard_and_disk) (started_in starting 1) 0 130 }
    ensures elsewhere { IsStartDue (fixed_of keyboard_and_disk) (started_in waiting 1) 0 130 → ⊥ }
{}

/// Where it was made and isn't written back it isn't done yet; once the walk of the frames is over it is, and no cancel of the keyboard was
/// accepted.
pub fn a_start_split_is_made()
    ensures not_yet { made_in starting 4 ≡ [] }
    ensures over { IsPastFrames (started_in starting 5) }
    ensures kept { IsUncancelled (started_in starting 5).driver 0 }
    ensures made { HasMade (IsStarted its_queue 1024) (made_in starting 5) }
{}

/// In microframe 2 a complete-split is due of the queue head that waits; in microframe 3 none is where that one wasn't made.
pub fn a_complete_split_is_due()
    ensures begins { controller_row waiting ≡ Begin }
    ensures due { IsCompleteDue (fixed_of keyboard_and_disk) (started_in waiting 1) 0 130 }
    ensures missed { IsCompleteDue (fixed_of keyboard_and_disk) (started_in too_late 1) 0 130 → ⊥ }
{}

/// Where it was made and isn't written back it isn't done yet; once the walk of the frames is over its microframe is marked, and it waits
/// further.
pub fn a_complete_split_is_made()
    ensures not_yet { made_in waiting 3 ≡ [] }
    ensures over { IsPastFrames (started_in waiting 4) }
    ensures marked { map (λ (m : QueueMade). m.queue.c_prog) (made_in waiting 4) ≡ 4 ∷ [] }
    ensures waits { map (λ (m : QueueMade). m.outcome) (made_in waiting 4) ≡ Wait ∷ [] }
{}

/// Where the translator has had the start-split since microframe 0, and a key is down, the Begin of microframe 2 leaves a world in which
/// its eight bytes are due; they aren't where the script loses the answer.
pub fn a_result_is_due()
    ensures due { IsResultDue (fixed_of keyboard_and_disk) (started_in pressed 1) 0 130 }
    ensures lost { IsAnswerDue answer_lost (started_in pressed 1) 0 130 → ⊥ }
{}

/// Where the complete-split was made and isn't written back they aren't taken yet; once the walk of the frames is over they are, and no
/// cancel of the keyboard was accepted.
pub fn a_result_is_taken()
    ensures not_yet { made_in pressed 3 ≡ [] }
    ensures over { IsPastFrames (started_in pressed 4) }
    ensures kept { IsUncancelled (started_in pressed 4).driver 0 }
    ensures taken { HasMade (IsTaken (its_head (started_in pressed 1)) its_queue 8) (made_in pressed 4) }
{}

/// Once its start-split is written back, and not before, the keyboard's queue head waits in memory and is in no hand. Its first
/// complete-split comes in microframe 2; in microframe 3 it is too late for it.
pub fn a_started_head_waits()
    ensures waits { IsWaitingIn (started_in starting 5) 0 130 (its_head (started_in starting 5)) }
    ensures left { IsLeftWaiting (started_in starting 5) 0 130 }
    ensures out { IsOutOfHand (started_in starting 5) its_queue }
    ensures not_yet { (q : Qh) → IsWaitingIn (started_in starting 4) 0 130 q → ⊥ }
    ensures turn { IsItsTurn (fixed_of keyboard_and_disk) (started_in waiting 1) keyboard_place (its_head (started_in waiting 1)) }
    ensures late { IsItsTurn (fixed_of keyboard_and_disk) (started_in too_late 1) keyboard_place (its_head (started_in too_late 1)) → ⊥ }
{}
