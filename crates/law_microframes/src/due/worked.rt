//! Worked rows of what is due, which the check computes: a high-speed keyboard in microframe 1 of frame 0 (EHCI 1.0, 3.6, 4.6 and 4.10).
ghost use Rattle.bus_wire.specs.Bus.{fixed_of};
ghost use Rattle.claims_world.specs.Visits.{HasVisited, IsPastFrames};
ghost use Rattle.claims_world.specs.Coming.{IsInItsFrames};
ghost use Rattle.claims_world.specs.Due.{IsDueNow, NoneIsLost};
ghost use Rattle.claims_world.specs.SoFar.{HasFound, HasMoved};
ghost use Rattle.law_microframes.specs.due.Samples.{keyboard, keyboard_place, one_keyboard, with_loss, keyed_at, keyed_so_far, keyed_visits, its_queue};

/// The walk comes to the keyboard's queue head in microframe 1, and a transaction of it is due then.
pub fn a_keyboard_is_due()
    ensures due { IsDueNow (fixed_of one_keyboard) (keyed_at 23) 0 130 }
    ensures found { HasFound its_queue (keyed_at 23) (keyed_so_far 24).found }
{}

/// Where its transaction was made and isn't written back it isn't done, and the walk isn't over; then both are.
pub fn a_keyboard_is_done()
    ensures not_yet { HasMoved its_queue 8 (keyed_so_far 29).moved → ⊥ }
    ensures goes_on { IsPastFrames (keyed_at 29) → ⊥ }
    ensures over { IsPastFrames (keyed_at 30) }
    ensures done { HasMoved its_queue 8 (keyed_so_far 30).moved }
{}

/// None of its packets is lost; where the script loses the second, its data, one is.
pub fn a_packet_is_lost()
    ensures kept { NoneIsLost (fixed_of one_keyboard) keyboard.name 0 }
    ensures lost { NoneIsLost (fixed_of with_loss) keyboard.name 0 → ⊥ }
{}

/// It is in its frames as microframe 1 begins, and is visited in it; while it is being linked it isn't yet.
pub fn a_keyboard_is_in_its_frames()
    ensures there { IsInItsFrames (keyed_at 21).driver 0 130 keyboard_place }
    ensures visited { HasVisited its_queue (keyed_visits 30) }
    ensures not_yet { IsInItsFrames (keyed_at 2).driver 0 130 keyboard_place → ⊥ }
{}
