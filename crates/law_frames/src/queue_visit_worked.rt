//! Worked rows, which the check computes.
ghost use Rattle.std.specs.Prelude.{◌≡◌, true, [], ◌∷◌, Some};
ghost use Rattle.law_structures.specs.lent_structures.Structures.{Buffer};
ghost use Rattle.law_structures.specs.lent_structures.StructureSamples.{pages};
ghost use Rattle.law_frames.specs.FrameHand.{Nothing, OfQueue};
ghost use Rattle.law_frames.specs.FrameEffects.{queue_written, after_back};
ghost use Rattle.law_frames.specs.Visits.{IsQueueVisit, IsWrittenBack};
ghost use Rattle.law_frames.specs.QueueVisitSamples.{memory, parts, met, copy, settled, after, high, one};

/// A queue head with a qTD of two bytes is visited: it works, and two bytes come, which end the qTD and the visit.
pub fn a_visit()
    ensures visit { IsQueueVisit met memory parts copy }
    ensures works { copy.queue.token.active ≡ true }
    ensures got { settled.got ≡ 1 ∷ 2 ∷ [] }
    ensures left { settled.host.left ≡ 0 }
    ensures back { IsWrittenBack met memory parts copy settled }
    ensures buffer { after 0 100 ≡ Some (Buffer pages 100 (1 ∷ 2 ∷ [])) }
    ensures over { after_back copy settled 1 ≡ Nothing }
{}

/// A full packet leaves bytes over: the visit goes on with a second transaction, and is over after it.
pub fn a_visit_goes_on()
    ensures left { one.host.left ≡ 1 }
    ensures active { one.host.active ≡ true }
    ensures again { after_back high one 1 ≡ OfQueue (record high { queue = queue_written high one }) 1 }
    ensures no_more { after_back high one 2 ≡ Nothing }
{}
