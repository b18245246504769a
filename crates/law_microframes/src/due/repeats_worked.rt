//! Worked rows of a keyboard's complete-split (EHCI 1.0, 4.12.2.4.2).
ghost use Rattle.std.specs.Prelude.{◌≡◌, ℕ};
ghost use Rattle.bus_wire.specs.Bus.{fixed_of};
ghost use Rattle.law_world.specs.memory.Samples.{keyboard_and_disk};
ghost use Rattle.law_microframes.specs.due.repeats.Samples.{waiting, answer_lost, lost_in, again_in, without_hub};

/// The complete-split of microframe 2, of which no packet is lost, is made once: the translator answers NYET.
pub fn a_complete_split_is_made_once()
    ensures none { lost_in (fixed_of keyboard_and_disk) waiting 5 ≡ 0 }
    ensures once { again_in (fixed_of keyboard_and_disk) waiting 5 ≡ 0 }
{}

/// Where its answer is lost it is made again at once, and counts apart.
pub fn a_lost_answer_is_asked_for_again()
    ensures before { lost_in answer_lost waiting 2 ≡ 0 }
    ensures lost { lost_in answer_lost waiting 3 ≡ 1 }
    ensures written { again_in answer_lost waiting 4 ≡ 0 }
    ensures again { again_in answer_lost waiting 5 ≡ 1081911 }
{}

/// Without the hub nobody answers: it is made again though no packet was lost, which no script has.
pub fn nobody_answers()
    ensures none { lost_in (fixed_of keyboard_and_disk) without_hub 5 ≡ 0 }
    ensures again { again_in (fixed_of keyboard_and_disk) without_hub 5 ≡ 1081911 }
{}
