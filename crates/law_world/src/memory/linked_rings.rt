//! Worked rows of rings of two queue heads, which the check computes (EHCI 1.0, 4.8.1).
ghost use Rattle.std.specs.Prelude.{[], ◌∷◌, ◌≡◌, Some, None};
ghost use Rattle.drv_table.specs.declared.content.Command.TheVariants as unfinished;
ghost use Rattle.drv_table.specs.Offers.{new_endpoint};
ghost use Rattle.law_driver.specs.run_owners.Worked.{bulk};
ghost use Rattle.claims_driver.specs.Ring.{members, IsChain};
ghost use Rattle.law_driver.specs.ring_members.Worked.{ring_word};
ghost use Rattle.claims_world.specs.Memory.{linked_to, AreOnce};

/// The head leads to the newest endpoint and back through the older one, also while a third isn't linked yet.
pub fn rings()
    ensures two { members (linked_to None (new_endpoint bulk 130 133 ∷ new_endpoint bulk 140 142 ∷ [])) ≡ 140 ∷ 130 ∷ [] }
    ensures opening { members (linked_to (Some (unfinished.Open 150)) (new_endpoint bulk 130 133 ∷ new_endpoint bulk 140 142 ∷ new_endpoint bulk 150 152 ∷ [])) ≡ 140 ∷ 130 ∷ [] }
    ensures chain { IsChain ring_word 128 (140 ∷ 130 ∷ []) }
    ensures once { AreOnce (128 ∷ 140 ∷ 130 ∷ []) }
{}
