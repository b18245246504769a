//! Worked rows of the definitions, which the check computes, and laws of them.
ghost use Rattle.std.specs.Prelude.{◌≡◌, ℕ, ◌+◌, ◌%◌, ◌<◌, ◌≤◌, ◌⊎◌, List, ◌∷◌, [], ◌++◌, length, take, replicate, Some, None};
ghost use Rattle.word_mem.specs.Memory.{Mem, word_at};
ghost use Rattle.qh_qtd.specs.declared.token.Token.{Token};
ghost use Rattle.word_mem.specs.declared.blocks.BlockState.TheVariants.{Lent, Kept, Free};
ghost use Rattle.mem_queues.specs.Structures.{qtd_at_address, qtd_was_read, queue_head_at_address, queue_head_was_read, overlay_words, overlay_written, token_written};
ghost use Rattle.mem_queues.specs.WriteBack.{OverlayChangesNoMore, OverlayIsRead, StepIsRead, TokenIsRead};
ghost use Rattle.mem_queues.specs.Samples.{head_memory, qtd_memory, nine_words, split_words, split_head, last_words, last_qtd, split_token};

/// A queue head is read where both of its blocks are Lent and no reserved bit is set. A refusal is counted once, and a reserved bit never.
#[tactic(auto, unfolding(word_mem::specs::Views::words_in, qh_qtd::specs::QueueHead::qh_read, qh_qtd::specs::QueueHead::qh_bad, qh_qtd::specs::QueueHead::qh_at, qh_qtd::specs::Token::token_at, link_words::specs::Layout::first_bad_bit))]
pub fn queue_heads_read()
    ensures read { queue_head_at_address (head_memory split_words Lent Lent) 32 ≡ Some split_head }
    ensures nothing_changed { queue_head_was_read (head_memory split_words Lent Lent) 32 ≡ head_memory split_words Lent Lent }
    ensures first { queue_head_at_address (head_memory split_words Kept Lent) 32 ≡ None }
    ensures first_counted { queue_head_was_read (head_memory split_words Kept Lent) 32 ≡ record (head_memory split_words Kept Lent) { foreign = 6 } }
    ensures second { queue_head_at_address (head_memory split_words Lent Kept) 32 ≡ None }
    ensures second_counted { queue_head_was_read (head_memory split_words Lent Kept) 32 ≡ record (head_memory split_words Lent Kept) { foreign = 6 } }

    // The last block: the second one would lie past the end.
    ensures past { queue_head_at_address (head_memory split_words Lent Lent) 64 ≡ None }
    ensures past_counted { (queue_head_was_read (head_memory split_words Lent Lent) 64).foreign ≡ 6 }

    // Bit 3 of word 0 is reserved.
    ensures reserved { queue_head_at_address (head_memory (8 ∷ replicate 11 0) Lent Lent) 32 ≡ None }
    ensures reserved_same { queue_head_was_read (head_memory (8 ∷ replicate 11 0) Lent Lent) 32 ≡ head_memory (8 ∷ replicate 11 0) Lent Lent }
{}

/// A qTD is read where its block is Lent and no reserved bit is set.
#[tactic(auto, unfolding(word_mem::specs::Views::words_in, qh_qtd::specs::Qtd::qtd_read, qh_qtd::specs::Qtd::qtd_bad, qh_qtd::specs::Qtd::qtd_at, qh_qtd::specs::Token::token_at, link_words::specs::Layout::first_bad_bit))]
pub fn qtds_read()
    ensures read { qtd_at_address (qtd_memory last_words Lent) 32 ≡ Some last_qtd }
    ensures nothing_changed { qtd_was_read (qtd_memory last_words Lent) 32 ≡ qtd_memory last_words Lent }
    ensures free { qtd_at_address (qtd_memory last_words Free) 32 ≡ None }
    ensures free_counted { qtd_was_read (qtd_memory last_words Free) 32 ≡ record (qtd_memory last_words Free) { foreign = 6 } }
    ensures kept { qtd_at_address (qtd_memory last_words Lent) 0 ≡ None }
    ensures past { qtd_at_address (qtd_memory last_words Lent) 64 ≡ None }
    ensures past_counted { (qtd_was_read (qtd_memory last_words Lent) 64).foreign ≡ 6 }

    // A reserved PID code.
    ensures reserved { qtd_at_address (qtd_memory (1 ∷ 1 ∷ 0x300 ∷ replicate 5 0) Lent) 32 ≡ None }
    ensures reserved_same { qtd_was_read (qtd_memory (1 ∷ 1 ∷ 0x300 ∷ replicate 5 0) Lent) 32 ≡ qtd_memory (1 ∷ 1 ∷ 0x300 ∷ replicate 5 0) Lent }
{}

/// The nine words of an overlay, and where they are written: five in the first block and four in the second.
#[tactic(auto, unfolding(word_mem::specs::Views::with_words_in, qh_qtd::specs::QueueHead::qh_words))]
pub fn overlays_written()
    ensures words { overlay_words split_head ≡ 0x20040 ∷ 0x30061 ∷ 0x40096 ∷ 0x92349E35 ∷ 0xABCDE123 ∷ 0x123450A5 ∷ 0x6789AF6D ∷ 0xFEDCB000 ∷ 0x1000 ∷ [] }
    ensures both { overlay_written (head_memory (replicate 12 0) Lent Lent) 32 nine_words ≡ head_memory (0 ∷ 0 ∷ 0 ∷ nine_words) Lent Lent }
    ensures first_alone { overlay_written (head_memory (replicate 12 0) Lent Kept) 32 nine_words ≡
        record (head_memory (0 ∷ 0 ∷ 0 ∷ (take 5 nine_words ++ replicate 4 0)) Lent Kept) { foreign = 6 } }
    ensures second_alone { overlay_written (head_memory (replicate 12 0) Kept Lent) 32 nine_words ≡
        record (head_memory (replicate 12 0) Kept Lent) { foreign = 6 } }
{}

/// The token is word 2 of its block.
#[tactic(auto, unfolding(qh_qtd::specs::Token::token_word))]
pub fn tokens_written()
    ensures written { token_written (qtd_memory (replicate 8 0) Lent) 32 split_token ≡ qtd_memory (0 ∷ 0 ∷ 0x92349E35 ∷ replicate 5 0) Lent }
    ensures kept { token_written (qtd_memory (replicate 8 0) Lent) 0 split_token ≡ record { words = replicate 8 7 ++ replicate 8 0; states = Kept ∷ Lent ∷ []; foreign = 6 } }
{}

/// A read changes no word and no state.
#[tactic(auto, using(crate::proofs::WriteBack::words_read, crate::proofs::WriteBack::states_read, crate::proofs::WriteBack::words_head_read, crate::proofs::WriteBack::states_head_read))]
pub fn reads_change_nothing()
    ensures qtd_words { (m : Mem) (a : ℕ) → (qtd_was_read m a).words ≡ m.words }
    ensures qtd_states { (m : Mem) (a : ℕ) → (qtd_was_read m a).states ≡ m.states }
    ensures queue_head_words { (m : Mem) (a : ℕ) → (queue_head_was_read m a).words ≡ m.words }
    ensures queue_head_states { (m : Mem) (a : ℕ) → (queue_head_was_read m a).states ≡ m.states }
{}

/// A write changes no state, and no word but the nine of the overlay, or the one of the token.
#[tactic(auto, using(crate::proofs::WriteBack::overlay_outside, crate::proofs::WriteBack::overlay_states, crate::proofs::WriteBack::overlay_size, crate::proofs::WriteBack::token_outside, crate::proofs::WriteBack::token_states, crate::proofs::WriteBack::token_size))]
pub fn writes_change_no_more()
    ensures overlay_words { OverlayChangesNoMore }
    ensures overlay_states { (m : Mem) (a : ℕ) (ws : List ℕ) → (overlay_written m a ws).states ≡ m.states }
    ensures overlay_size { (m : Mem) (a : ℕ) (ws : List ℕ) → length (overlay_written m a ws).words ≡ length m.words }
    ensures token_words { (m : Mem) (a : ℕ) (t : Token) (other : ℕ) → a % 4 ≡ 0 → (other < a + 8) ⊎ (a + 12 ≤ other) → word_at (token_written m a t) other ≡ word_at m other }
    ensures token_states { (m : Mem) (a : ℕ) (t : Token) → (token_written m a t).states ≡ m.states }
    ensures token_size { (m : Mem) (a : ℕ) (t : Token) → length (token_written m a t).words ≡ length m.words }
{}

/// What was written is read. A queue head whose first three words stand in memory, or are those of the queue head there, is there once
/// its overlay is written. Of a qTD that is there a written token changes that field alone.
#[tactic(auto, using(crate::proofs::WriteBack::head_written_back, crate::proofs::WriteBack::head_stepped, crate::proofs::WriteBack::token_written_back))]
pub fn written_is_read()
    ensures overlay { OverlayIsRead }
    ensures stepped { StepIsRead }
    ensures token { TokenIsRead }
{}
