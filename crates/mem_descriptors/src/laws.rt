//! Worked rows of the definitions, which the check computes, and laws of them.
ghost use Rattle.std.specs.Prelude.{◌≡◌, ℕ, ◌+◌, ◌%◌, ◌<◌, ◌≤◌, ◌⊎◌, List, ◌∷◌, [], ◌++◌, ◌^◌, length, replicate, slice_index, slice_set, Some, None};
ghost use Rattle.word_mem.specs.Memory.{Mem, word_at};
ghost use Rattle.itd_sitd.specs.declared.slot.ItdSlot.{ItdSlot};
ghost use Rattle.itd_sitd.specs.declared.sitd.Sitd.{Sitd};
ghost use Rattle.word_mem.specs.declared.blocks.BlockState.TheVariants.{Lent, Kept, Free};
ghost use Rattle.mem_descriptors.specs.Descriptors.{itd_at_address, itd_was_read, sitd_at_address, sitd_was_read, slot_written, state_words, state_written};
ghost use Rattle.mem_descriptors.specs.WriteBack.{SlotChangesNoMore, StateChangesNoMore, SlotIsRead};
ghost use Rattle.mem_descriptors.specs.Samples.{itd_memory, sitd_memory, full_words, full_itd, first_slot, split_words, split_sitd};

/// An iTD is read where both of its blocks are Lent and no reserved bit is set. A refusal is counted once, and a reserved bit never.
#[tactic(auto, unfolding(word_mem::specs::Views::words_in, itd_sitd::specs::Itd::itd_read, itd_sitd::specs::Itd::itd_bad, itd_sitd::specs::Itd::itd_at, itd_sitd::specs::Slot::slot_at, link_words::specs::Layout::first_bad_bit))]
pub fn itds_read()
    ensures read { itd_at_address (itd_memory full_words Lent Lent) 32 ≡ Some full_itd }
    ensures nothing_changed { itd_was_read (itd_memory full_words Lent Lent) 32 ≡ itd_memory full_words Lent Lent }
    ensures first { itd_at_address (itd_memory full_words Kept Lent) 32 ≡ None }
    ensures first_counted { itd_was_read (itd_memory full_words Kept Lent) 32 ≡ record (itd_memory full_words Kept Lent) { foreign = 6 } }
    ensures second { itd_at_address (itd_memory full_words Lent Kept) 32 ≡ None }
    ensures second_counted { itd_was_read (itd_memory full_words Lent Kept) 32 ≡ record (itd_memory full_words Lent Kept) { foreign = 6 } }

    // The last block: the second one would lie past the end.
    ensures past { itd_at_address (itd_memory full_words Lent Lent) 64 ≡ None }
    ensures past_counted { (itd_was_read (itd_memory full_words Lent Lent) 64).foreign ≡ 6 }

    // No transaction in a microframe is reserved.
    ensures reserved { itd_at_address (itd_memory (replicate 16 0) Lent Lent) 32 ≡ None }
    ensures reserved_same { itd_was_read (itd_memory (replicate 16 0) Lent Lent) 32 ≡ itd_memory (replicate 16 0) Lent Lent }
{}

/// A siTD is read where its block is Lent and no reserved bit is set.
#[tactic(auto, unfolding(word_mem::specs::Views::words_in, itd_sitd::specs::Sitd::sitd_read, itd_sitd::specs::Sitd::sitd_bad, itd_sitd::specs::Sitd::sitd_at, link_words::specs::Layout::first_bad_bit))]
pub fn sitds_read()
    ensures read { sitd_at_address (sitd_memory split_words Lent) 32 ≡ Some split_sitd }
    ensures nothing_changed { sitd_was_read (sitd_memory split_words Lent) 32 ≡ sitd_memory split_words Lent }
    ensures free { sitd_at_address (sitd_memory split_words Free) 32 ≡ None }
    ensures free_counted { sitd_was_read (sitd_memory split_words Free) 32 ≡ record (sitd_memory split_words Free) { foreign = 6 } }
    ensures past { sitd_at_address (sitd_memory split_words Lent) 64 ≡ None }

    // Bit 0 of word 3 is reserved.
    ensures reserved { sitd_at_address (sitd_memory (1 ∷ 0 ∷ 0 ∷ 1 ∷ 0 ∷ 0 ∷ 1 ∷ []) Lent) 32 ≡ None }
    ensures reserved_same { sitd_was_read (sitd_memory (1 ∷ 0 ∷ 0 ∷ 1 ∷ 0 ∷ 0 ∷ 1 ∷ []) Lent) 32 ≡ sitd_memory (1 ∷ 0 ∷ 0 ∷ 1 ∷ 0 ∷ 0 ∷ 1 ∷ []) Lent }
{}

/// Microframe k is word k + 1: the first seven lie in the first block, and the last in the second.
#[tactic(auto, unfolding(itd_sitd::specs::Slot::slot_word))]
pub fn slots_written()
    ensures first { slot_written (itd_memory (replicate 16 0) Lent Kept) 32 0 first_slot ≡ itd_memory (0 ∷ 0x8400A123 ∷ replicate 14 0) Lent Kept }
    ensures seventh { slot_written (itd_memory (replicate 16 0) Lent Kept) 32 6 first_slot ≡ itd_memory (0 ∷ 0 ∷ 0 ∷ 0 ∷ 0 ∷ 0 ∷ 0 ∷ 0x8400A123 ∷ replicate 8 0) Lent Kept }
    ensures last { slot_written (itd_memory (replicate 16 0) Kept Lent) 32 7 first_slot ≡ itd_memory (replicate 8 0 ++ 0x8400A123 ∷ replicate 7 0) Kept Lent }
    ensures last_kept { slot_written (itd_memory (replicate 16 0) Lent Kept) 32 7 first_slot ≡ record (itd_memory (replicate 16 0) Lent Kept) { foreign = 6 } }
{}

/// The transfer state and the buffer pointers are words 3 to 5.
#[tactic(auto, unfolding(word_mem::specs::Views::with_words_in, itd_sitd::specs::Sitd::sitd_words))]
pub fn states_written()
    ensures words { state_words split_sitd ≡ 0xC2BCA586 ∷ 0xABCDE123 ∷ 0x1234500D ∷ [] }
    ensures written { state_written (sitd_memory (replicate 7 0) Lent) 32 (11 ∷ 12 ∷ 13 ∷ []) ≡ sitd_memory (0 ∷ 0 ∷ 0 ∷ 11 ∷ 12 ∷ 13 ∷ 0 ∷ []) Lent }
    ensures kept { state_written (sitd_memory (replicate 7 0) Kept) 32 (11 ∷ 12 ∷ 13 ∷ []) ≡ record (sitd_memory (replicate 7 0) Kept) { foreign = 6 } }
{}

/// A read changes no word and no state.
#[tactic(auto, using(crate::proofs::WriteBack::itd_words_read, crate::proofs::WriteBack::itd_states_read, crate::proofs::WriteBack::sitd_words_read, crate::proofs::WriteBack::sitd_states_read))]
pub fn reads_change_nothing()
    ensures itd_words { (m : Mem) (a : ℕ) → (itd_was_read m a).words ≡ m.words }
    ensures itd_states { (m : Mem) (a : ℕ) → (itd_was_read m a).states ≡ m.states }
    ensures sitd_words { (m : Mem) (a : ℕ) → (sitd_was_read m a).words ≡ m.words }
    ensures sitd_states { (m : Mem) (a : ℕ) → (sitd_was_read m a).states ≡ m.states }
{}

/// A write changes no state, and no word but that of the microframe, or the three of the state.
#[tactic(auto, using(crate::proofs::WriteBack::slot_outside, crate::proofs::WriteBack::slot_states, crate::proofs::WriteBack::state_outside, crate::proofs::WriteBack::state_states))]
pub fn writes_change_no_more()
    ensures slot_words { SlotChangesNoMore }
    ensures slot_states { (m : Mem) (a k : ℕ) (s : ItdSlot) → (slot_written m a k s).states ≡ m.states }
    ensures state_words { StateChangesNoMore }
    ensures state_states { (m : Mem) (a : ℕ) (ws : List ℕ) → (state_written m a ws).states ≡ m.states }
{}

/// What was written is read: of an iTD that is there a written microframe changes that microframe alone.
#[tactic(auto, using(crate::proofs::WriteBack::slot_written_back))]
pub fn written_is_read()
    ensures { SlotIsRead }
{}
