//! Worked rows of split transactions along their frame, which the check computes: a full-speed keyboard behind a hub in microframes 0 and 2
//! of frame 128 (EHCI 1.0, 4.12.2.4; USB 2.0, 11.18 and 11.20).
ghost use Rattle.std.specs.Prelude.{◌≡◌, [], slice_get};
ghost use Rattle.tt_pipeline.specs.declared.entry.Entry.{Entry};
ghost use Rattle.claims_world.specs.QueuesMade.{HasMade};
ghost use Rattle.claims_world.specs.Results.{IsToldBy};
ghost use Rattle.bus_wire.specs.Bus.{fixed_of};
ghost use Rattle.law_world.specs.memory.Samples.{keyboard, keyboard_and_disk};
ghost use Rattle.law_microframes.specs.due.repeats.Samples.{waiting, pressed};
ghost use Rattle.claims_world.specs.SplitFrames.{IsAnswer, IsNotYet, IsEntryOf, HasCome, IsDoneBy};
ghost use Rattle.law_reports.specs.due_at_begin.BelowStays.{IsNotHigh, StaysBelow};
ghost use Rattle.law_reports.specs.due_at_begin.SplitSamples.{starting, started_in, made_in, its_queue, pressed_head, other_toggle};
ghost use Rattle.claims_world.specs.SplitFrames.{IsDoneOf};

/// Once the walk of the frames is over in microframe 0 the keyboard's start-split has come to its translator; before it was made it hadn't.
pub fn a_start_split_comes()
    ensures come { HasCome (started_in starting 5).bus keyboard }
    ensures not_yet { HasCome (started_in starting 2).bus keyboard → ⊥ }
{}

/// Where a key is down the host heard in the complete-split of microframe 2 what the keyboard said, once it is written back, and not before;
/// that is an answer. Where the translator has nothing it is NYET.
pub fn a_device_is_heard()
    ensures not_yet { made_in pressed 3 ≡ [] }
    ensures told { (e : Entry) → IsEntryOf (started_in pressed 1).bus keyboard e → HasMade (IsToldBy its_queue e) (made_in pressed 4) }
    ensures answer { HasMade (IsAnswer its_queue) (made_in pressed 4) }
    ensures nyet { HasMade (IsNotYet its_queue) (made_in waiting 4) }
{}

/// So its transaction is done in microframe 2, once it is written back, and not before.
pub fn a_split_is_done()
    ensures done { IsDoneBy (started_in pressed 1) its_queue keyboard (made_in pressed 4) }
    ensures not_yet { IsDoneBy (started_in pressed 1) its_queue keyboard (made_in pressed 3) → ⊥ }
{}

/// What it moved is of its queue head as microframe 2 began; of one with the other toggle it isn't.
pub fn a_split_is_taken()
    ensures taken { IsDoneOf pressed_head (started_in pressed 1) its_queue keyboard (made_in pressed 4) }
    ensures other { IsDoneOf (other_toggle pressed_head) (started_in pressed 1) its_queue keyboard (made_in pressed 4) → ⊥ }
{}

/// The keyboard, device 0, has no endpoint on the high-speed bus, and the disk has one. In microframe 2 the number of its next packet below
/// stays as the Begin left it, which counted those of its answer.
pub fn a_keyboard_stays_below()
    ensures below { IsNotHigh (fixed_of keyboard_and_disk) 0 }
    ensures high { IsNotHigh (fixed_of keyboard_and_disk) 1 → ⊥ }
    ensures stays { slice_get (started_in pressed 4).bus.below 1 ≡ slice_get (started_in pressed 1).bus.below 1 }
    ensures counts { StaysBelow 0 pressed.bus (started_in pressed 1).bus → ⊥ }
{}
