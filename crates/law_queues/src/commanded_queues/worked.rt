//! A worked row of the definitions, which the check computes.
ghost use Rattle.qh_qtd.specs.QueueHead.{IsQhInRange};
ghost use Rattle.drv_table.specs.Words.{queue_head};
ghost use Rattle.claims_driver.specs.Walk.{IsNumbered};
ghost use Rattle.law_driver.specs.chained_transfers.Bulk.{IsBulk};
ghost use Rattle.law_driver.specs.AsynchronousScripts.{IsAsynchronous};
ghost use Rattle.law_queues.specs.commanded_queues.Samples.{highest, highest_out, highest_control};

/// An endpoint of the highest address and number, of either way or of control, whose queue head leads to the head of the ring, in block 128, and to the inactive
/// qTD in block 143.
pub fn a_new_head()
    ensures bulk { IsBulk highest }
    ensures out { IsBulk highest_out }
    ensures control { IsAsynchronous highest_control }
    ensures numbered { IsNumbered highest }
    ensures range { IsQhInRange (queue_head highest 128 143) }
    ensures out_range { IsQhInRange (queue_head highest_out 128 143) }
    ensures control_range { IsQhInRange (queue_head highest_control 128 143) }
{}
