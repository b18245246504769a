//! Worked rows of the definitions, which the check computes.
ghost use Rattle.std.specs.Prelude.{◌≡◌, map, ◌∷◌, []};
ghost use Rattle.drv_table.specs.Words.{put_stages};
ghost use Rattle.law_world.specs.streams.put_laws.Held.{held_bytes, AreFilled};
ghost use Rattle.law_world.specs.streams.put_laws.ByteSamples.{small, notes, five};

/// The bytes of the buffer, and qTDs of two bytes that send five: two, two and one.
pub fn a_put_of_five_bytes()
    ensures held { held_bytes small notes 0 1 ≡ five }
    ensures pieces { map (λ s. s.long) (put_stages 5 2) ≡ 2 ∷ 2 ∷ 1 ∷ [] }
    ensures filled { AreFilled (put_stages 5 2) five }
{}
