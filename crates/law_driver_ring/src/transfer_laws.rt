//! The laws.
ghost use Rattle.law_driver_ring.specs.TransferLaws.{AcceptedAwaitsLend, WrittenStays, LendDrives};

/// Once a transfer was accepted, all that is to be lent are the runs of its further qTDs, of the new inactive one and of its
/// buffers, which are kept, and the words of these qTDs stand there. The controller leaves them.
pub fn a_transfer_is_written()
    ensures accepted { AcceptedAwaitsLend }
    ensures stays { WrittenStays }
{}

/// Where all that was taken for a transfer is lent, wherever the walk is and whatever it has in hand, the ring goes on with its qTDs and
/// buffers: the links of each qTD lead on, each buffer is one qTD's, and the first qTD can be published.
pub fn lend_drives()
    ensures { LendDrives }
{}
