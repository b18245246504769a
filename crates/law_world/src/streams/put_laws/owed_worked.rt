//! Worked rows of the definitions, which the check computes.
ghost use Rattle.std.specs.Prelude.{◌≡◌, [], ◌∷◌};
ghost use Rattle.law_world.specs.streams.put_laws.HeldPuts.{with_put};
ghost use Rattle.law_world.specs.streams.put_laws.ByteSamples.{five};
ghost use Rattle.law_world.specs.streams.put_laws.Owed.{rest_of, Owes};
ghost use Rattle.law_world.specs.streams.put_laws.Buffers.{IsPublishingTo};
ghost use Rattle.law_world.specs.streams.put_laws.OwedSamples.{buffers, at_half, at_first, at_end, halted, publishing, told_bytes};

/// Of a put of five bytes in two qTDs three are still to be sent once the first was read, all before that, and none once it is reported.
pub fn what_is_still_to_be_sent()
    ensures first { rest_of at_first buffers 0 ≡ five }
    ensures half { rest_of at_half buffers 0 ≡ 3 ∷ 4 ∷ 5 ∷ [] }
    ensures end { rest_of at_end buffers 0 ≡ [] }
    ensures other { rest_of at_half buffers 1 ≡ [] }
{}

/// What was reported, and that, are the put. Where its second qTD halted, what was reported begins it.
pub fn a_put_of_five_bytes()
    ensures first { Owes at_first buffers (with_put (λ t. []) 0 five) (told_bytes []) }
    ensures half { Owes at_half buffers (with_put (λ t. []) 0 five) (told_bytes (1 ∷ 2 ∷ [])) }
    ensures end { Owes at_end buffers (with_put (λ t. []) 0 five) (told_bytes five) }
    ensures halted { Owes halted buffers (with_put (λ t. []) 0 five) (told_bytes (1 ∷ 2 ∷ 3 ∷ [])) }
    ensures wrong { Owes at_half buffers (with_put (λ t. []) 0 five) (told_bytes (9 ∷ [])) → ⊥ }
{}

/// Its first qTD, in block 0, is being published.
pub fn a_put_that_is_published()
    ensures published { IsPublishingTo publishing 0 0 }
    ensures others { IsPublishingTo publishing 1 0 → ⊥ }
    ensures done { IsPublishingTo at_half 0 0 → ⊥ }
{}
