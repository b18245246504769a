ghost use Rattle.std.specs.Prelude.{◌≡◌, ◌∷◌, [], ◌++◌, replicate};
ghost use Rattle.mem_queues.specs.Structures.{overlay_written};
ghost use Rattle.law_ring.specs.walk_writes.Samples.{half_lent, overlay};

/// An overlay whose second block is the driver's is written up to that block, and the refusal is counted; one whose first block is, isn't written.
pub fn a_kept_block_stays()
    ensures first { (overlay_written half_lent 0 overlay).words ≡ 7 ∷ 7 ∷ 7 ∷ 1 ∷ 2 ∷ 3 ∷ 4 ∷ 5 ∷ replicate 8 7 }
    ensures second { (overlay_written half_lent 32 overlay).words ≡ replicate 16 7 }
    ensures counted { (overlay_written half_lent 0 overlay).foreign ≡ 1 }
{}
