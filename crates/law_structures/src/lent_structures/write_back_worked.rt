//! A worked row, which the check computes.
ghost use Rattle.std.specs.Prelude.{◌≡◌, ◌∷◌, [], true, Some, None};
ghost use Rattle.law_structures.specs.lent_structures.Structures.{QueueHead, Element, Buffer};
ghost use Rattle.law_structures.specs.lent_structures.StructureSamples.{queue, element, pages, parts};
ghost use Rattle.law_structures.specs.lent_structures.WriteBack.{CanBeWritten};
ghost use Rattle.law_structures.specs.lent_structures.WriteBackSamples.{settled, got, into, written};

/// Two bytes were received: the buffer has them, the queue head its new token and place, with the link that it had in memory, and the qTD the
/// new token.
pub fn two_bytes()
    ensures can { CanBeWritten parts 0 0 queue settled got into element }
    ensures head { written 0 0 ≡ Some (QueueHead (record queue { token = settled.token; offset = 102 })) }
    ensures element { written 0 64 ≡ Some (Element (record element { token = settled.token })) }
    ensures buffer { written 0 100 ≡ Some (Buffer pages 100 (1 ∷ 2 ∷ [])) }
    ensures nothing { written 0 128 ≡ None }
    ensures others { written 32 0 ≡ None }
{}
