//! Worked values of the definitions, which the check computes.
ghost use Rattle.std.specs.Prelude.{◌≡◌, ◌∷◌, [], ◌++◌, Option, Some, None, Bool, true, false, replicate};
ghost use Rattle.word_mem.specs.Runs.{Run};
ghost use Rattle.word_mem.specs.Memory.{Mem, reaches, word_at, with_word, with_states, released, refused, filled};
ghost use Rattle.word_mem.specs.Free.{lowest_run, longest_run};
ghost use Rattle.word_mem.specs.Views.{words_at, with_words, byte_at, bytes_at, with_bytes};

use crate::blocks::BlockState;

/// Which run of Free blocks is the lowest, and how long the longest is.
#[tactic(auto, unfolding(crate::specs::Free::lowest_run, crate::specs::Free::longest_run))]
pub fn free_runs()
    ensures middle { lowest_run (BlockState.Kept ∷ BlockState.Free ∷ BlockState.Free ∷ BlockState.Lent ∷ []) 2 ≡ Some (record { first = 1; blocks = 2 }) }
    ensures none { lowest_run (BlockState.Free ∷ BlockState.Kept ∷ BlockState.Free ∷ []) 2 ≡ None }
    ensures next_page { lowest_run (replicate 127 BlockState.Lent ++ replicate 3 BlockState.Free) 2 ≡ Some (record { first = 128; blocks = 2 }) }
    ensures longest { longest_run (BlockState.Free ∷ BlockState.Kept ∷ BlockState.Free ∷ BlockState.Free ∷ []) ≡ 2 }
    ensures full { longest_run (BlockState.Kept ∷ BlockState.Lent ∷ []) ≡ 0 }
{}

/// What the controller reaches: block 1 of three, which is Lent.
pub fn reached()
    ensures kept { reaches (record { words = []; states = BlockState.Kept ∷ BlockState.Lent ∷ BlockState.Free ∷ []; foreign = 0 }) 28 ≡ false }
    ensures lent { reaches (record { words = []; states = BlockState.Kept ∷ BlockState.Lent ∷ BlockState.Free ∷ []; foreign = 0 }) 60 ≡ true }
    ensures free { reaches (record { words = []; states = BlockState.Kept ∷ BlockState.Lent ∷ BlockState.Free ∷ []; foreign = 0 }) 64 ≡ false }
    ensures past { reaches (record { words = []; states = BlockState.Kept ∷ BlockState.Lent ∷ BlockState.Free ∷ []; foreign = 0 }) 96 ≡ false }
    ensures last { refused (record { words = []; states = []; foreign = 18446744073709551615 }) ≡ record { words = []; states = []; foreign = 18446744073709551615 } }
{}

/// Words and bytes at an address: the lowest byte of a word first.
#[tactic(auto, unfolding(crate::specs::Views::words_in, crate::specs::Views::bytes_in, crate::specs::Views::with_bytes_in))]
pub fn words_and_bytes()
    ensures words { words_at (record { words = 5 ∷ 6 ∷ 7 ∷ []; states = []; foreign = 0 }) 4 2 ≡ 6 ∷ 7 ∷ [] }
    ensures bytes { bytes_at (record { words = 0x4433_2211 ∷ 0x88 ∷ []; states = []; foreign = 0 }) 2 3 ≡ 0x33 ∷ 0x44 ∷ 0x88 ∷ [] }
    ensures written { (with_bytes (record { words = 0x4433_2211 ∷ 0 ∷ []; states = []; foreign = 0 }) 3 (0xaa ∷ 0xbb ∷ [])).words ≡ 0xaa33_2211 ∷ 0xbb ∷ [] }
{}
