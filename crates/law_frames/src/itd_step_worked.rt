//! Worked rows, which the check computes: transactions of an iTD, in the frame of an iTD and a queue head.
ghost use Rattle.std.specs.Prelude.{◌≡◌, true, [], ◌∷◌, Some};
ghost use Rattle.itd_sitd.specs.Itd.{slot_of};
ghost use Rattle.hc_iso.specs.declared.held.IsoEnd.TheVariants.{Failed};
ghost use Rattle.async_walk.specs.declared.state.WalkStep.TheVariants as steps;
ghost use Rattle.periodic_walk.specs.Itd.{got_after};
ghost use Rattle.periodic_walk.specs.Rows.{step_of, Leads};
ghost use Rattle.law_ring.specs.Effects.{AreBytesHeard};
ghost use Rattle.law_frames.specs.FrameHand.{OfItd};
ghost use Rattle.law_frames.specs.Frame.{IsCopiedItd, IsFrame};
ghost use Rattle.law_frames.specs.FrameEffects.{itd_back};
ghost use Rattle.law_frames.specs.PartSamples.{met, parts, in_hand};
ghost use Rattle.law_frames.specs.ItdStepSamples.{at, hears, left, too_long, babbled};

/// The iTD's microframe is active, and there is time: one transaction is made, two bytes come, and they are kept for the write-back.
pub fn a_transaction_at_an_itd()
    ensures frame { IsFrame met parts (OfItd in_hand) at }
    ensures heard { AreBytesHeard hears 0 1 }
    ensures leads { Leads hears at 0 left 1 }
    ensures step { step_of at ≡ steps.Transact }
    ensures bytes { left.walk.got ≡ 5 ∷ 6 ∷ [] }
{}

/// A packet is longer than what may come: the error is in the microframe's word, nothing of the packet is kept, and no byte of it is counted (4.7.1).
pub fn a_packet_that_is_too_long()
    ensures babble { babbled.held.slot.babble ≡ true }
    ensures ended { babbled.held.ended ≡ Some Failed }
    ensures kept { got_after in_hand.held too_long [] ≡ [] }
    ensures counted { babbled.held.moved ≡ 0 }
    ensures copied { IsCopiedItd met parts [] babbled }
    ensures length { (slot_of 2 (itd_back babbled)).length ≡ 0 }
{}
