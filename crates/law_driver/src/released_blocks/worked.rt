//! A worked row, which the check computes.
ghost use Rattle.std.specs.Prelude.{◌≡◌, ◌∷◌, ◌++◌, [], replicate};
ghost use Rattle.word_mem.specs.declared.blocks.BlockState.TheVariants.{Free, Lent};
ghost use Rattle.mem_runs.specs.Book.{holding};
ghost use Rattle.drv_table.specs.Releases.{free_runs};
ghost use Rattle.law_driver.specs.released_blocks.Worked.{four_blocks, its_book};

/// A run of two blocks from block 1 on is given back: both are Free, their words are 0, and the blocks beside them stay as they were.
pub fn a_run_of_two_blocks()
    ensures states { (free_runs (holding its_book four_blocks) (1 ∷ [])).memory.states ≡ Lent ∷ Free ∷ Free ∷ Lent ∷ [] }
    ensures words { (free_runs (holding its_book four_blocks) (1 ∷ [])).memory.words ≡ replicate 8 7 ++ (replicate 16 0 ++ replicate 8 7) }
{}
