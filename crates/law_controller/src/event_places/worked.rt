//! Worked rows, which the check computes.
ghost use Rattle.std.specs.Prelude.{◌≡◌, ◌∷◌, [], take};
ghost use Rattle.usb_base.specs.declared.packets.Reply.TheVariants.{Bytes, Silent};
ghost use Rattle.usb_base.specs.declared.packets.Pid.TheVariants.{Data0};
ghost use Rattle.mem_queues.specs.Structures.{token_written};
ghost use Rattle.qh_qtd.specs.declared.token.Token.{Token};
ghost use Rattle.law_ring.specs.walk_writes.Samples.{half_lent};
ghost use Rattle.law_controller.specs.event_places.Places.{heard};

/// The token of the qTD in block 0 is its third word: the two links before it stay.
pub fn a_token_is_no_link()
    ensures links { (t : Token) → take 2 (token_written half_lent 0 t).words ≡ 7 ∷ 7 ∷ [] }
    ensures bytes { heard (Bytes Data0 (1 ∷ 2 ∷ 3 ∷ [])) ≡ 3 }
    ensures silent { heard Silent ≡ 0 }
{}
