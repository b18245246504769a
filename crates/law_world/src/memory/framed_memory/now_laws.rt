//! The laws of a driver with what was unlinked in this microframe.
ghost use Rattle.law_world.specs.memory.framed_memory.Now.{NowHasFrames, NewIsFramedNow, ControllerKeepsNow, RegistersKeepNow};
ghost use Rattle.law_world.specs.memory.framed_memory.NowRows.{UnlinkKeepsNow, LinkKeepsNow, ReleaseKeepsNow, WaitingKeepsNow};

use usb_base::Wire;

/// The words of memory stand for its frame list, whose members are spread.
pub fn now_has_frames()
    ensures { NowHasFrames }
{}

/// A driver that was just built and a new controller are framed so: nothing was unlinked yet.
pub fn new_is_framed_now()
    ensures { NewIsFramedNow }
{}

/// Each event of the controller keeps it: from the begin of a microframe on those that stand are met alone, and through the others what was unlinked in it stays
/// recent, since FRINDEX stays (2.3.4, 4.6).
pub fn controller_keeps_now<W: Wire>()
    ensures { ControllerKeepsNow W.begins W.transacts }
{}

/// Rows that read FRINDEX or USBSTS, clear Async Advance, ring the doorbell or do nothing keep it (2.3.4, 4.6, 4.8.2).
pub fn registers_keep_now()
    ensures { RegistersKeepNow }
{}

/// Where a harvested descriptor is unlinked, what the structures became is framed, and the descriptor is recent from then on (4.6).
pub fn unlink_keeps_now()
    ensures { UnlinkKeepsNow }
{}

/// So it is in each store by which a command links or unlinks members: the one whose last unlinking store it is is recent from then on.
pub fn link_keeps_now()
    ensures { LinkKeepsNow }
{}

/// Once what was unlinked is given back, all else is framed: a descriptor alone, or those that wait at an isochronous endpoint (2.3.4, 4.6).
pub fn releases_keep_it_framed_now()
    ensures descriptor { ReleaseKeepsNow }
    ensures waiting { WaitingKeepsNow }
{}
