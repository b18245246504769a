//! Worked rows, which the check computes.
ghost use Rattle.std.specs.Prelude.{[], ◌≡◌, Some, None, true, false, ◌==◌, ◌∷◌};
ghost use Rattle.drv_table.specs.declared.content.Command.TheVariants as unfinished;
ghost use Rattle.law_driver.specs.chained_transfers.Worked.{under_way};
ghost use Rattle.law_world.specs.streams.Feeding.{heads_of, acc_after};
ghost use Rattle.law_queues.specs.standing_fronts.Tails.{tail_block};
ghost use Rattle.usb_base.specs.declared.packets.EpKind.TheVariants as kinds;
ghost use Rattle.drv_table.specs.Words.{queue_head};
ghost use Rattle.law_driver.specs.run_owners.Worked.{bulk};
ghost use Rattle.law_ring.specs.Told.{endpoint_of};
ghost use Rattle.law_driver_ring.specs.PartOpened.{is_head};
ghost use Rattle.law_driver_ring.specs.Linked.{with_member};

/// The walk meets the head of the ring and one queue head more, which is an endpoint's: one of those whose bytes are counted, if it is no control endpoint's.
pub fn queue_heads()
    ensures ring { heads_of (with_member is_head 4160) (λ n. endpoint_of (queue_head bulk 128 133)) 4096 ≡ false }
    ensures endpoint { heads_of (with_member is_head 4160) (λ n. endpoint_of (queue_head bulk 128 133)) 4160 ≡ true }
    ensures control { heads_of (with_member is_head 4160) (λ n. endpoint_of (queue_head (record bulk { kind = kinds.Control }) 128 133)) 4160 ≡ false }
    ensures other { heads_of (with_member is_head 4160) (λ n. endpoint_of (queue_head bulk 128 133)) 4352 ≡ false }
{}

/// The queue head at 4160 has a stream, of which a packet of one byte was taken; of the one at 4352, which has none, a byte was moved.
pub fn packets_taken()
    ensures stream { acc_after (λ n. n == 4160) (λ n. []) 4160 ((5 ∷ []) ∷ []) (λ n. 7 ∷ []) 4160 ≡ (5 ∷ []) ∷ [] }
    ensures other { acc_after (λ n. n == 4160) (λ n. []) 4160 ((5 ∷ []) ∷ []) (λ n. 7 ∷ []) 4352 ≡ (7 ∷ []) ∷ [] }
{}

/// While it is published its first qTD is the tail of its endpoint's queue, and after the last store the end of the queue is; of another endpoint that is so all along.
pub fn tails()
    ensures published { tail_block (Some (unfinished.Publish 141 [])) (Some under_way) 0 143 ≡ 141 }
    ensures finished { tail_block None (Some under_way) 0 143 ≡ 143 }
    ensures beside { tail_block (Some (unfinished.Publish 141 [])) (Some under_way) 1 163 ≡ 163 }
{}
