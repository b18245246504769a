//! Worked rows, which the check computes.
ghost use Rattle.std.specs.Prelude.{[], ◌∷◌};
ghost use Rattle.bus_wire.specs.Bus.{fixed_of};
ghost use Rattle.law_world.specs.streams.put_laws.TakenSamples.{two_puts};
ghost use Rattle.law_world.specs.streams.sending_worlds.LeavingSent.{IsSent};
ghost use Rattle.law_world.specs.streams.sending_worlds.LeaveSamples.{going, cancelled, five_put, at_half, world_of};

/// Of a put of five bytes two were reported, and the device took four: so it is while the endpoint goes on, and once it was cancelled. It isn't where another byte
/// was reported, nor where the device took another byte, or one more than were put.
pub fn a_put_of_five_bytes()
    ensures going { IsSent (fixed_of two_puts) five_put (at_half (1 ∷ 2 ∷ [])) (world_of going (1 ∷ 2 ∷ 3 ∷ 4 ∷ [])) }
    ensures cancelled { IsSent (fixed_of two_puts) five_put (at_half (1 ∷ 2 ∷ [])) (world_of cancelled (1 ∷ 2 ∷ 3 ∷ 4 ∷ [])) }
    ensures told { IsSent (fixed_of two_puts) five_put (at_half (9 ∷ [])) (world_of going (1 ∷ 2 ∷ 3 ∷ 4 ∷ [])) → ⊥ }
    ensures taken { IsSent (fixed_of two_puts) five_put (at_half (1 ∷ 2 ∷ [])) (world_of going (9 ∷ [])) → ⊥ }
    ensures more { IsSent (fixed_of two_puts) five_put (at_half (1 ∷ 2 ∷ [])) (world_of cancelled (1 ∷ 2 ∷ 3 ∷ 4 ∷ 5 ∷ 6 ∷ [])) → ⊥ }
{}
