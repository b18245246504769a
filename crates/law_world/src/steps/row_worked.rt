//! Worked rows.
ghost use Rattle.std.specs.Prelude.{◌≡◌, ℕ, ◌==◌, true, false, List, [], ◌∷◌, Some};
ghost use Rattle.qh_qtd.specs.Blank.{blank_qtd, blank_token};
ghost use Rattle.law_world.specs.steps.Outs.{IsUntaken, GoesAs};
ghost use Rattle.law_world.specs.steps.Harvests.{with_more};
ghost use Rattle.law_world.specs.steps.RowSamples.{idle, sending, done, ring, Sends};

/// A taker that took nothing, and one that took two bytes; an OUT, and an IN.
pub fn of_the_words()
    ensures untaken { IsUntaken (Some (record { taken = []; expects = false })) }
    ensures taken { IsUntaken (Some (record { taken = 7 ∷ 9 ∷ []; expects = true })) → ⊥ }
    ensures out { GoesAs (λ n. n == 0) 0 sending }
    ensures no_in { GoesAs (λ n. n == 0) 0 (record blank_qtd { token = record blank_token { active = true; pid = 1 } }) → ⊥ }
    ensures beside { GoesAs (λ n. n == 0) 32 sending → ⊥ }
    ensures more { with_more (λ k. 7 ∷ []) 32 (9 ∷ []) 32 ≡ 7 ∷ 9 ∷ [] }
    ensures others { with_more (λ k. 7 ∷ []) 32 (9 ∷ []) 64 ≡ 7 ∷ [] }
{}

/// A queue head whose qTD has nothing to send, one whose qTD is to send two bytes, and one that sent them, before the harvest and after it. A device that took a
/// byte that none sent has no such stream.
pub fn of_two_bytes()
    ensures begins { Sends [] [] (ring idle blank_qtd) (record { taken = []; expects = false }) }
    ensures stored { Sends (64 ∷ []) [] (ring idle sending) (record { taken = []; expects = false }) }
    ensures sent { Sends (64 ∷ []) [] (ring (record idle { token = record blank_token { toggle = true } }) done) (record { taken = 7 ∷ 9 ∷ []; expects = true }) }
    ensures harvested { Sends [] (7 ∷ 9 ∷ []) (ring (record idle { token = record blank_token { toggle = true } }) done) (record { taken = 7 ∷ 9 ∷ []; expects = true }) }
    ensures wrong { Sends [] [] (ring idle blank_qtd) (record { taken = 7 ∷ []; expects = false }) → ⊥ }
{}
