//! Worked rows of the definitions, which the check computes.
ghost use Rattle.std.specs.Prelude.{◌≡◌, [], ◌∷◌, true, false};
ghost use Rattle.mem_runs.specs.Book.{kept_in, lent_in, can_store, slot_of};
ghost use Rattle.mem_runs.specs.declared.slots.Slot.TheVariants.{Empty, Keeps, Lends};

/// Which runs a list of slots has, and which addresses lie in a run of two blocks from block 2 on.
pub fn slots()
    ensures kept { kept_in (Empty ∷ Keeps (record { first = 1; blocks = 1 }) ∷ Lends (record { first = 2; blocks = 2 }) ∷ []) ≡ (record { first = 1; blocks = 1 }) ∷ [] }
    ensures lent { lent_in (Empty ∷ Keeps (record { first = 1; blocks = 1 }) ∷ Lends (record { first = 2; blocks = 2 }) ∷ []) ≡ (record { first = 2; blocks = 2 }) ∷ [] }
    ensures past { slot_of (Empty ∷ []) 1 ≡ Empty }
    ensures before { can_store (Lends (record { first = 2; blocks = 2 })) 60 ≡ false }
    ensures first { can_store (Lends (record { first = 2; blocks = 2 })) 64 ≡ true }
    ensures last { can_store (Lends (record { first = 2; blocks = 2 })) 124 ≡ true }
    ensures after { can_store (Lends (record { first = 2; blocks = 2 })) 128 ≡ false }
{}
