//! Worked rows: a ring of two bulk endpoints, the older in block 130 and the newer in block 140, and the older is cancelled.
ghost use Rattle.std.specs.Prelude.{◌≡◌, ◌*◌, true, false, [], ◌∷◌, Some, None};
ghost use Rattle.drv_table.specs.declared.rows.DriverRow.TheVariants as rows;
ghost use Rattle.drv_table.specs.Rows.{driver_row};
ghost use Rattle.drv_table.specs.Accepting.{before, after};
ghost use Rattle.drv_table.specs.Words.{to_queue_head, queue_head};
ghost use Rattle.claims_driver.specs.Ring.{members, IsChain};
ghost use Rattle.law_driver.specs.ring_members.Words.{AreLinked};
ghost use Rattle.law_driver.specs.run_owners.Worked.{bulk};
ghost use Rattle.law_structures.specs.lent_structures.StructureSamples.{nothing};
ghost use Rattle.law_structures.specs.lent_structures.Structures.{QueueHead};
ghost use Rattle.law_ring.specs.Hand.{Empty, Copied};
ghost use Rattle.law_queues.specs.publish_laws.Stores.{next_of};
ghost use Rattle.law_world.specs.steps.unlinked_streams.Unlinks.{parts_unlinked, hand_unlinked};
ghost use Rattle.law_world.specs.steps.unlinked_streams.Samples.{two, cancelling, word, word_then, newer, copy};

/// The head led to the newer one, and this to the older one.
pub fn a_ring_of_two()
    ensures members { members two ≡ 140 ∷ 130 ∷ [] }
    ensures chain { IsChain word 128 (140 ∷ 130 ∷ []) }
    ensures links { AreLinked word 128 cancelling.driver.endpoints }
{}

/// The store is that of the newer one's link, which leads to the head then. The older one waits for the doorbell.
pub fn the_older_is_passed()
    ensures before { before cancelling.driver 0 ≡ 140 }
    ensures after { after cancelling.driver 0 ≡ 128 }
    ensures row { driver_row cancelling ≡ rows.Store 140 4480 4098 }
    ensures waiting { (next_of cancelling).driver.waiting ≡ 0 ∷ [] }
    ensures command { (next_of cancelling).driver.command ≡ None }
    ensures members { members (next_of cancelling).driver.endpoints ≡ 140 ∷ [] }
    ensures chain { IsChain word_then 128 (140 ∷ []) }
    ensures links { AreLinked word_then 128 (next_of cancelling).driver.endpoints }
{}

/// The newer one keeps all but its link, and a copy of it has the new link too.
pub fn what_is_stored()
    ensures head { parts_unlinked nothing 140 newer 128 4480 4480 ≡ Some (QueueHead (queue_head bulk 128 142)) }
    ensures others { parts_unlinked nothing 140 newer 128 4160 4160 ≡ None }
    ensures copied { hand_unlinked (Copied copy) 140 128 ≡ Copied (record copy { queue = queue_head bulk 128 142 }) }
    ensures empty { hand_unlinked Empty 140 128 ≡ Empty }
{}
