//! Worked rows of reads of the head of the ring, which the check computes.
ghost use Rattle.std.specs.Prelude.{◌≡◌, ℕ, suc};
ghost use Rattle.law_world.specs.memory.Samples.{keyboard_and_disk};
ghost use Rattle.law_microframes.specs.time.HeadReads.{heads};
ghost use Rattle.law_microframes.specs.time.HeadSamples.{typed_heads};

/// The counts after the open of the keyboard's endpoint, which is accepted, are those of the run of what is left.
pub fn its_reads()
    ensures { (k : ℕ) → heads keyboard_and_disk (suc k) ≡ typed_heads k }
{}

/// In the first microframe the head is read, then the disk's queue head, which is idle, is passed; the second read of the head ends the part (4.8.3).
pub fn the_head_is_read_twice()
    ensures before { typed_heads 30 ≡ 0 }
    ensures first { typed_heads 32 ≡ 1 }
    ensures passed { typed_heads 38 ≡ 1 }
    ensures second { typed_heads 40 ≡ 2 }
{}
