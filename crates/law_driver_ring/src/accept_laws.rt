//! The laws.
ghost use Rattle.law_driver_ring.specs.AcceptLaws.{OpenDrives, TransferDrives, CancelDrives};

/// An accepted command that opens an endpoint of the ring, brings a transfer, or cancels an endpoint of the ring leaves the
/// ring as it was, and the structures that the driver has lent.
pub fn commands_leave_it_driven()
    ensures opening { OpenDrives }
    ensures transfer { TransferDrives }
    ensures cancelling { CancelDrives }
{}
