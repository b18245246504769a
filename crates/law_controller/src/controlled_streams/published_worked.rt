//! Worked rows: a queue head at 0 with a qTD at 64 that isn't active, between one at 32 and one at 96 that are out.
ghost use Rattle.std.specs.Prelude.{◌≡◌, ℕ, ◌∷◌, [], ◌++◌};
ghost use Rattle.qh_qtd.specs.Blank.{blank_qtd};
ghost use Rattle.law_structures.specs.lent_structures.Structures.{Element, put};
ghost use Rattle.law_structures.specs.lent_structures.StructureSamples.{nothing};
ghost use Rattle.law_controller.specs.controlled_streams.Storing.{IsStore, with_out};

/// It may be stored over.
pub fn store_rows()
    ensures store { IsStore (λ a. a) (32 ∷ 96 ∷ []) (put nothing 0 64 (Element blank_qtd)) 0 64 blank_qtd blank_qtd }
    ensures out { with_out (λ k. []) 0 (32 ∷ 64 ∷ 96 ∷ []) 0 ≡ 32 ∷ 64 ∷ 96 ∷ [] }
    ensures beside { with_out (λ k. []) 0 (32 ∷ 64 ∷ 96 ∷ []) 1 ≡ [] }
{}
