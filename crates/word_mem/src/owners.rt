//! Laws of the runs in hand. Who keeps the runs that `take`, `lend` and `unlend` gave knows from them the state of each block, and no two
//! of them share a block. Each function does nothing; its contract is the law, over the contents that the calls of `WordMem` leave.
ghost use Rattle.std.specs.Prelude.{◌≡◌, ℕ, ◌≤◌, All, List, [], ◌∷◌, ◌++◌, Some};
ghost use Rattle.word_mem.specs.Runs.{Run};
ghost use Rattle.word_mem.specs.Memory.{Mem, AreAll, state_at, fresh, with_word, refused};
ghost use Rattle.word_mem.specs.Owners.{IsHeldBy, AreDisjoint, TakingKeeps, LendingKeeps, UnlendingKeeps, ReleasingKeeps, HasNoOrder, holders};

use crate::blocks::BlockState;

/// Runs in hand share no block, kept or lent.
#[tactic(auto, using(crate::proofs::Holders::held_disjoint))]
pub fn runs_are_disjoint()
    ensures { (m : Mem) (kept lent : List Run) → IsHeldBy m kept lent → All (λ r. 1 ≤ r.blocks) (kept ++ lent) → AreDisjoint (kept ++ lent) }
{}

/// A memory just built is told by no run, and each call leaves a memory that is told by the runs that are then in hand.
#[tactic(auto, using(crate::proofs::Holders::held_fresh, crate::proofs::Holders::held_taken, crate::proofs::Holders::held_lent, crate::proofs::Holders::held_unlent, crate::proofs::Holders::held_released, crate::proofs::Holders::held_word, crate::proofs::Holders::held_refused))]
pub fn calls_keep_the_runs()
    ensures built { (n : ℕ) → IsHeldBy (fresh n) [] [] }
    ensures taken { TakingKeeps }
    ensures lent { LendingKeeps }
    ensures unlent { UnlendingKeeps }
    ensures released { ReleasingKeeps }
    ensures written { (m : Mem) (at v : ℕ) (kept lent : List Run) → IsHeldBy m kept lent → IsHeldBy (with_word m at v) kept lent }
    ensures refused { (m : Mem) (kept lent : List Run) → IsHeldBy m kept lent → IsHeldBy (refused m) kept lent }
{}

/// The order in which runs are listed says nothing.
#[tactic(auto, using(crate::proofs::Holders::held_same))]
pub fn runs_have_no_order()
    ensures { HasNoOrder }
{}

/// The blocks of a kept run are all Kept and those of a lent run all Lent, which is what the calls that take a run require; and the Lent
/// blocks are exactly those of the lent runs.
#[tactic(auto, using(crate::proofs::Holders::kept_all, crate::proofs::Holders::lent_all, crate::proofs::Holders::lent_blocks, crate::proofs::Holders::blocks_lent))]
pub fn runs_tell_the_states()
    ensures kept { (m : Mem) (r : Run) (kept lent : List Run) → IsHeldBy m (r ∷ kept) lent → 1 ≤ r.blocks → AreAll m BlockState.Kept r }
    ensures lent { (m : Mem) (r : Run) (kept lent : List Run) → IsHeldBy m kept (r ∷ lent) → 1 ≤ r.blocks → AreAll m BlockState.Lent r }
    ensures only_lent { (m : Mem) (kept lent : List Run) (b : ℕ) → IsHeldBy m kept lent → state_at m b ≡ Some BlockState.Lent → holders lent b ≡ 1 }
    ensures all_lent { (m : Mem) (kept lent : List Run) (b : ℕ) → IsHeldBy m kept lent → holders lent b ≡ 1 → state_at m b ≡ Some BlockState.Lent }
{}
