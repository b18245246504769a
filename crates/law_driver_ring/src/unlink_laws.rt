//! The laws.
ghost use Rattle.law_driver_ring.specs.Leaving.{UnlinkDrives, AnswerDrives};

/// Where the queue head before it is linked to the one after it, the ring goes on; and at an answer of the doorbell the walk meets from then on
/// only queue heads whose links lead among them.
pub fn a_queue_head_leaves()
    ensures unlinks { UnlinkDrives }
    ensures answers { AnswerDrives }
{}
