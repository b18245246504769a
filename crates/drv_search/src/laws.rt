//! The laws, each a function whose contract is the law.
ghost use Rattle.std.specs.Prelude.{◌≡◌, ℕ, map};
ghost use Rattle.drv_chains.specs.Chains.{Schedule};
ghost use Rattle.drv_chains.specs.Classes.{words_below};
ghost use Rattle.drv_search.specs.Search.{found_below, word_of};

/// What a search finds are the words below the class, in their order.
pub fn search_is_the_words()
    ensures { (s : Schedule) → (left level phase : ℕ) → map (word_of s) (found_below s left level phase) ≡ words_below s left level phase }
{}
