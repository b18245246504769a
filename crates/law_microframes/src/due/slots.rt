//! The slots of isochronous transfer descriptors (EHCI 1.0, 3.3.2 and 4.7.1).
ghost use Rattle.law_microframes.specs.due.slots.SlotLaws.{TextsServeSlots};

/// Once the walk of the frames is over, each slot that it fetched active in the microframe is done, and no other.
pub fn texts_serve_slots()
    ensures { TextsServeSlots }
{}
