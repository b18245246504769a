//! Worked rows: a bulk endpoint with its queue head in block 130 and its inactive qTD in block 133 is opened.
ghost use Rattle.std.specs.Prelude.{◌≡◌, ◌*◌, true, false, Some};
ghost use Rattle.usb_base.specs.declared.packets.Way.TheVariants as ways;
ghost use Rattle.drv_table.specs.Offers.{new_endpoint};
ghost use Rattle.drv_table.specs.Words.{opening_head, to_queue_head, queue_head};
ghost use Rattle.law_driver.specs.run_owners.Worked.{bulk};
ghost use Rattle.law_structures.specs.lent_structures.StructureSamples.{nothing};
ghost use Rattle.law_structures.specs.lent_structures.Structures.{QueueHead};
ghost use Rattle.law_driver_ring.specs.Linked.{head_at};
ghost use Rattle.law_ring.specs.Told.{endpoint_of};
ghost use Rattle.law_queues.specs.open_laws.Opens.{head_then, end_then, streams_then};

/// The head leads to it, its endpoint is told whatever its queue head leads to, and it has a stream if it is an IN one.
pub fn open_rows()
    ensures head { head_then nothing opening_head (new_endpoint bulk 130 133) head_at head_at ≡ Some (QueueHead (record opening_head { link = to_queue_head 130 })) }
    ensures end { end_then (new_endpoint bulk 130 133) ≡ endpoint_of (queue_head bulk 128 133) }
    ensures get { streams_then (λ k. false) (new_endpoint bulk 130 133) (32 * 130) ≡ true }
    ensures put { streams_then (λ k. false) (new_endpoint (record bulk { name = record { addr = 1; num = 1; way = ways.Out } }) 130 133) (32 * 130) ≡ false }
    ensures control { streams_then (λ k. false) (new_endpoint (record bulk { name = record { addr = 1; num = 0; way = ways.Ctl } }) 130 133) (32 * 130) ≡ false }
    ensures beside { streams_then (λ k. true) (new_endpoint bulk 130 133) 32 ≡ true }
{}
