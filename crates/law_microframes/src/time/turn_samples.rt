//! Worked rows of the events ahead, which the check computes.
ghost use Rattle.std.specs.Prelude.{◌≡◌, ℕ, suc};
ghost use Rattle.law_world.specs.memory.Samples.{keyboard_and_disk};
ghost use Rattle.law_microframes.specs.time.Ahead.{ahead};
ghost use Rattle.claims_world.specs.Microframes.{microframe_whole};
ghost use Rattle.law_microframes.specs.time.TurnSamples.{typed_ahead};

/// The counts after the open of the keyboard's endpoint, which is accepted, are those of the run of what is left.
pub fn its_events_ahead()
    ensures { (k : ℕ) → ahead keyboard_and_disk (suc k) ≡ typed_ahead k }
{}

/// They fall in the first microframe: it begins, the keyboard's queue head is read in the frame's chain and passed, the head of the ring is read, then the disk's queue head, and it is
/// passed; the second read of the head ends the microframe, and those of a whole one are ahead again.
pub fn they_fall_in_a_microframe()
    ensures whole { microframe_whole ≡ 17957822 }
    ensures before { typed_ahead 25 ≡ 17957822 }
    ensures begun { typed_ahead 26 ≡ 17957821 }
    ensures keyboard { typed_ahead 28 ≡ 17957820 }
    ensures passed { typed_ahead 30 ≡ 17957817 }
    ensures head { typed_ahead 32 ≡ 17695255 }
    ensures disk { typed_ahead 36 ≡ 17695251 }
    ensures passed_too { typed_ahead 38 ≡ 17695248 }
    ensures over { typed_ahead 40 ≡ 17957822 }
{}
