//! Worked values of the definitions, which the check computes.
ghost use Rattle.std.specs.Prelude.{◌≡◌, ◌∷◌, [], ◌++◌, Some, None, true, false, replicate, if◌then◌else◌};
ghost use Rattle.word_mem.specs.Memory.{reaches, refused, word_at, with_word};
ghost use Rattle.word_mem.specs.Views.{words_at, with_words};
ghost use Rattle.lent_words.specs.Lent.{lent_mem};

/// Of 19 words the controller reaches two blocks of eight; the three words behind them are no whole block.
pub fn reached()
    ensures first { reaches (lent_mem (replicate 19 7) 0) 0 ≡ true }
    ensures last { reaches (lent_mem (replicate 19 7) 0) 60 ≡ true }
    ensures torn { reaches (lent_mem (replicate 19 7) 0) 64 ≡ false }
    ensures past { reaches (lent_mem (replicate 19 7) 0) 4294967292 ≡ false }
{}

/// A read outside finds nothing, and not 0; a write outside reaches no word, also not one at the same place of another turn. Either is
/// counted.
pub fn outside()
    ensures read { (if reaches (lent_mem (replicate 8 7) 0) 32 then Some (word_at (lent_mem (replicate 8 7) 0) 32) else None) ≡ None }
    ensures found { (if reaches (lent_mem (replicate 8 7) 0) 28 then Some (word_at (lent_mem (replicate 8 7) 0) 28) else None) ≡ Some 7 }
    ensures past { reaches (lent_mem (replicate 8 7) 0) 32 ≡ false }
    ensures counted { refused (lent_mem (replicate 8 7) 0) ≡ lent_mem (replicate 8 7) 1 }
    ensures inside { with_word (lent_mem (replicate 8 7) 0) 28 5 ≡ lent_mem (replicate 7 7 ++ 5 ∷ []) 0 }
{}

/// Words in a row are read and written where their block is whole: two of the last block, none of the three words behind it. What is
/// refused leaves all words and is counted, up to the last number that is kept.
#[tactic(auto, unfolding(word_mem::specs::Views::words_in, word_mem::specs::Views::with_words_in))]
pub fn in_a_row()
    ensures read { words_at (lent_mem (replicate 6 7 ++ 5 ∷ 6 ∷ replicate 3 9) 0) 24 2 ≡ 5 ∷ 6 ∷ [] }
    ensures written { with_words (lent_mem (replicate 11 7) 0) 24 (5 ∷ 6 ∷ []) ≡ lent_mem (replicate 6 7 ++ 5 ∷ 6 ∷ replicate 3 7) 0 }
    ensures torn { let m = lent_mem (replicate 11 7) 0 in
        (if reaches m 32 then with_words m 32 (5 ∷ 6 ∷ []) else refused m) ≡ lent_mem (replicate 11 7) 1 }
    ensures one_torn { let m = lent_mem (replicate 11 7) 4 in
        (if reaches m 40 then with_word m 40 5 else refused m) ≡ lent_mem (replicate 11 7) 5 }
    ensures most { refused (lent_mem [] 18446744073709551615) ≡ lent_mem [] 18446744073709551615 }
{}
