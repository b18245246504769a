//! Worked rows of the definitions, which the check computes.
ghost use Rattle.std.specs.Prelude.{◌≡◌, [], ◌∷◌};
ghost use Rattle.usb_base.specs.declared.commands.Cmd.TheVariants as commands;
ghost use Rattle.law_world.specs.streams.put_laws.ByteSamples.{small, five};
ghost use Rattle.law_world.specs.streams.put_laws.HeldPuts.{HoldsPuts, with_put, puts_then, told_before, piece_of, first_moved};
ghost use Rattle.law_world.specs.streams.put_laws.HeldSamples.{name, sending, pieces};

/// The one put of a driver holds its five bytes; the next put has number 1; and two qTDs send two of five bytes and three, of which two and one were moved.
pub fn puts_of_five_bytes()
    ensures held { HoldsPuts sending small (with_put (λ t. []) 0 five) }
    ensures newest { puts_then sending (commands.Put name (7 ∷ []) 1) (λ t. []) 1 ≡ 7 ∷ [] }
    ensures older { puts_then sending (commands.Put name (7 ∷ []) 1) (with_put (λ t. []) 0 five) 0 ≡ five }
    ensures before { told_before pieces 0 2 ≡ 5 }
    ensures second { piece_of pieces 0 1 five ≡ 3 ∷ 4 ∷ 5 ∷ [] }
    ensures moved { first_moved pieces 0 2 five ≡ 1 ∷ 2 ∷ 3 ∷ [] }
{}
