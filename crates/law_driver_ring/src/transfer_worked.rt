//! Worked rows of the definitions, which the check computes.
ghost use Rattle.std.specs.Prelude.{◌≡◌, [], ◌∷◌, false, true};
ghost use Rattle.word_mem.specs.Memory.{fresh};
ghost use Rattle.drv_table.specs.Words.{to_qtd};
ghost use Rattle.law_structures.specs.lent_structures.Sound.{buffer_name};
ghost use Rattle.law_driver_ring.specs.Written.{AreAllApart, next_blocks, buffer_blocks, last_block};
ghost use Rattle.law_driver_ring.specs.Pieces.{stage_qtd, qtd_items, buffer_items};
ghost use Rattle.law_driver_ring.specs.TransferWorked.{notes, stage, names};

/// Two qTDs from block 1 on: the blocks that follow, where their buffers begin, and the last; the first qTD leads to the second, and to the inactive one
/// after a short packet. The second and the inactive one are lent, and both buffers.
pub fn a_chain()
    ensures next { next_blocks notes (stage ∷ stage ∷ []) 1 ≡ 2 ∷ 3 ∷ [] }
    ensures buffers { buffer_blocks notes (stage ∷ stage ∷ []) 1 ≡ 5 ∷ 6 ∷ [] }
    ensures last { last_block notes (stage ∷ stage ∷ []) 1 ≡ 3 }
    ensures leads { (stage_qtd notes stage 1 3 false).next ≡ to_qtd 2 }
    ensures short { (stage_qtd notes stage 1 3 false).alternate ≡ to_qtd 3 }
    ensures name { buffer_name (stage_qtd notes stage 1 3 false) ≡ 160 }
    ensures qtds { names (qtd_items notes 3 (stage ∷ []) 2) ≡ 64 ∷ 96 ∷ [] }
    ensures lent { names (buffer_items (fresh 1024) notes 3 (stage ∷ stage ∷ []) 1) ≡ 160 ∷ 192 ∷ [] }
{}
