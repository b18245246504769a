//! A worked row, which the check computes.
ghost use Rattle.std.specs.Prelude.{◌≡◌, slice_index, Some};
ghost use Rattle.word_mem.specs.Memory.{state_at};
ghost use Rattle.word_mem.specs.declared.blocks.BlockState.TheVariants.{Kept, Lent};
ghost use Rattle.mem_queues.specs.Structures.{overlay_written};
ghost use Rattle.law_ring.specs.walk_writes.Samples.{half_lent, overlay};

/// Nine words are written from the fourth word of a Lent block on: those of the Kept block behind it stay.
pub fn a_word_of_a_kept_block()
    ensures first { state_at half_lent 0 ≡ Some Lent }
    ensures second { state_at half_lent 1 ≡ Some Kept }
    ensures written { slice_index (overlay_written half_lent 0 overlay).words 7 ≡ 5 }
    ensures kept { slice_index (overlay_written half_lent 0 overlay).words 8 ≡ 7 }
{}
