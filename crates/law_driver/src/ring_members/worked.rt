//! Worked rows of the definitions, which the check computes: two bulk endpoints, in blocks 130 and 140, and an interrupt one beside them, which is
//! in no ring.
ghost use Rattle.std.specs.Prelude.{◌≡◌, ℕ, ◌==◌, if◌then◌else◌, [], ◌∷◌};
ghost use Rattle.drv_table.specs.Accepting.{newest_of, oldest_of};
ghost use Rattle.claims_driver.specs.Ring.{members, IsChain};
ghost use Rattle.law_driver.specs.ring_members.Words.{AreLinked};
ghost use Rattle.law_driver.specs.ring_members.Links.{newest_from};
ghost use Rattle.law_driver.specs.ring_members.Worked.{ring_endpoints, ring_word};

/// The ring of the driver that has opened both: the newest first.
pub fn ring_rows()
    ensures members { members ring_endpoints ≡ 140 ∷ 130 ∷ [] }
    ensures newest { newest_of ring_endpoints ≡ 140 }
    ensures oldest { oldest_of ring_endpoints ≡ 130 }
    ensures from_head { newest_from 128 [] ≡ 128 }
{}

/// Words that tell it: the head leads to block 140, that to block 130, and that back to the head.
pub fn word_rows()
    ensures chain { IsChain ring_word 128 (140 ∷ 130 ∷ []) }
    ensures links { AreLinked ring_word 128 ring_endpoints }
{}
