//! Worked rows: a control endpoint whose request was found stalled, with nothing behind it.
ghost use Rattle.std.specs.Prelude.{◌≡◌, true, false, [], ◌∷◌, slice_get, Some};
ghost use Rattle.link_words.specs.Links.{no_qtd, qtd_link_of};
ghost use Rattle.link_words.specs.declared.kinds.QtdLink.TheVariants.{To};
ghost use Rattle.qh_qtd.specs.Blank.{blank_token};
ghost use Rattle.qh_qtd.specs.QueueHead.{IsQhInRange};
ghost use Rattle.hc_copy.specs.Visits.{next_pointer};
ghost use Rattle.drv_table.specs.declared.rows.DriverRow.TheVariants as rows;
ghost use Rattle.drv_table.specs.declared.content.Sort.TheVariants as sorts;
ghost use Rattle.drv_table.specs.DriverContent.{no_note};
ghost use Rattle.drv_table.specs.Harvests.{found_in};
ghost use Rattle.drv_table.specs.Rows.{driver_row, after_driver_row};
ghost use Rattle.drv_table.specs.Harvesting.{mends_of};
ghost use Rattle.drv_table.specs.Words.{queue_head, to_qtd};
ghost use Rattle.law_ring.specs.Hand.{Copied, Stale, copied_queue};
ghost use Rattle.law_queues.specs.mended_heads.Owed.{left_of, store_due};
ghost use Rattle.law_queues.specs.mended_heads.Waiting.{AreStalled};
ghost use Rattle.law_queues.specs.mended_heads.Stalling.{IsStall, HaltsQueue};
ghost use Rattle.law_queues.specs.mended_heads.Mended.{next_of, IsAtMend, IsMendedWhole, hand_mended};
ghost use Rattle.law_queues.specs.mended_heads.Samples.{asking, stall, control, endpoint, waiting, stalled, halted_head, first_parts, none_out, once, twice, thrice, halted_copy};

/// A harvest reads the token of the SETUP, which was halted by a STALL. The endpoint goes on with nothing next, its transfer is to be given back, and it is owed three
/// stores; its queue head is halted, and nothing is out.
pub fn a_stall_is_harvested()
    ensures found { found_in sorts.Request false no_note halted_head.token ≡ stall }
    ensures stall { IsStall control.kind stall }
    ensures owes { (after_driver_row (rows.Harvest 0 0 stall) asking).driver.mends ≡ left_of stalled }
    ensures ends { slice_get (after_driver_row (rows.Harvest 0 0 stall) asking).driver.endpoints 0 ≡ Some endpoint }
    ensures given { (after_driver_row (rows.Harvest 0 0 stall) asking).driver.harvested ≡ 0 ∷ [] }
    ensures halts { HaltsQueue [] first_parts 4160 }
{}

/// The endpoint is owed three stores, of words 4, 5 and 6 of its queue head: it leads to its inactive qTD, has no alternate, and is neither active nor halted.
pub fn three_stores_are_owed()
    ensures owed { mends_of endpoint ≡ left_of stalled }
    ensures first { store_due stalled ≡ record { queue = 130; at = 4176; value = 4256 } }
    ensures second { store_due (record stalled { made = 1 }) ≡ record { queue = 130; at = 4180; value = 1 } }
    ensures third { store_due (record stalled { made = 2 }) ≡ record { queue = 130; at = 4184; value = 0 } }
{}

/// The premises of the laws: its queue waits, and the driver's next event is the first of these stores. After the third event nothing is owed.
pub fn a_stalled_queue_waits()
    ensures waits { AreStalled waiting.driver first_parts none_out (stalled ∷ []) }
    ensures moment { IsAtMend waiting first_parts none_out }
    ensures row { driver_row waiting ≡ rows.Mend (store_due stalled) }
    ensures next { driver_row (next_of waiting) ≡ rows.Mend (store_due (record stalled { made = 1 })) }
    ensures last { driver_row (next_of (next_of waiting)) ≡ rows.Mend (store_due (record stalled { made = 2 })) }
    ensures none { (next_of (next_of (next_of waiting))).driver.mends ≡ [] }
{}

/// Until the third store the queue head is halted. Then it is idle, and leads to the inactive qTD in block 133; all else is as it was, but for its count of NAKs.
pub fn three_stores_mend_it()
    ensures range { IsQhInRange halted_head }
    ensures once { once.token ≡ halted_head.token }
    ensures twice { twice.token ≡ halted_head.token }
    ensures leads { qtd_link_of (next_pointer thrice) ≡ To 4256 }
    ensures idle { thrice.token ≡ blank_token }
    ensures whole { IsMendedWhole stalled thrice }
    ensures is { thrice ≡ record (queue_head control 128 133) { current = 4192 } }
{}

/// A copy that was read before is stale from the first store on, and halted.
pub fn a_copy_is_stale()
    ensures stale { hand_mended (Copied halted_copy) stalled ≡ Stale 4160 halted_head }
    ensures same { copied_queue halted_copy ≡ halted_head }
{}
