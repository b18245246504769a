//! A worked row, which the check computes.
ghost use Rattle.std.specs.Prelude.{◌≡◌, ◌++◌, ◌∷◌, [], replicate, false};
ghost use Rattle.mem_descriptors.specs.Descriptors.{slot_written};
ghost use Rattle.itd_sitd.specs.declared.slot.ItdSlot.{ItdSlot};
ghost use Rattle.law_ring.specs.walk_writes.Samples.{half_lent};

/// The words of microframes 0 to 6 of an iTD lie in its first block; that of microframe 7 lies in the second, which is the driver's here, and isn't written.
pub fn a_microframe_of_an_itd()
    ensures first { (s : ItdSlot) → (slot_written half_lent 0 6 s).foreign ≡ 0 }
    ensures last { (s : ItdSlot) → (slot_written half_lent 0 7 s).words ≡ replicate 16 7 }
    ensures counted { (s : ItdSlot) → (slot_written half_lent 0 7 s).foreign ≡ 1 }
{}
