//! The laws of the events of any driver, as its queues tell them (EHCI 1.0, 4.6, 4.8 and 4.10).
ghost use Rattle.law_driver.specs.queued_drivers.Rows.{
  QueueRowsAgree,
  ChainLendsAgree,
  ChainsFinish,
  OtherRowsLeaveQueues,
  RemovedEndpointsGo,
  EachEventHasAKind,
  NewDriverQueues,
  RowsKeepQueues,
  QueuedHasOwners,
  QueuedAreLent,
};

/// An event of a queue is the same event of the driver of bulk and control endpoints whose content the queues tell.
pub fn queue_rows_agree()
    ensures { QueueRowsAgree }
{}

/// The lend of a queue head that is to be linked in frames is that of one that is to be linked in the ring, unless nothing is to be stored.
pub fn chain_lends_agree()
    ensures { ChainLendsAgree }
{}

/// With its last event the command is finished, and all else is as it was.
pub fn chains_finish()
    ensures { ChainsFinish }
{}

/// Events of the frame list, of isochronous descriptors and of isochronous endpoints leave the queues as they are.
pub fn other_rows_leave_queues()
    ensures { OtherRowsLeaveQueues }
{}

/// An interrupt endpoint that is given back goes as one that had left the ring.
pub fn removed_endpoints_go()
    ensures { RemovedEndpointsGo }
{}

/// Each event that is due is one of these.
pub fn each_event_has_a_kind()
    ensures { EachEventHasAKind }
{}

/// The queues of a driver that was just built take turns: it has none.
pub fn new_driver_queues()
    ensures { NewDriverQueues }
{}

/// Each event of the driver leaves its queues chained and in turn.
pub fn rows_keep_queues()
    ensures { RowsKeepQueues }
{}

/// What the queues tell has owners, as the driver has.
pub fn queued_has_owners()
    ensures { QueuedHasOwners }
{}

/// .. and its runs are lent, unless descriptors are still to be lent.
pub fn queued_are_lent()
    ensures { QueuedAreLent }
{}
