//! What stands of control queues is left by everything that happens.
ghost use Rattle.law_world.specs.steps.control_queues.Beside.{NewDriverControls, ControllerKeepsControls, SameKeepControls};
ghost use Rattle.law_world.specs.steps.control_queues.Beside.{CommandsKeepControls, SilentKeepsControls};
ghost use Rattle.law_world.specs.steps.control_queues.Queues.{LendKeepsQueues, OpenLendIsWhole, OpenIsWhole, LinkKeepsControls};
ghost use Rattle.law_world.specs.steps.control_queues.Rows.{LendKeepsControls, StoreKeepsControls, OpenLendKeepsControls};
ghost use Rattle.law_world.specs.steps.control_queues.Rows.{OpenLinkKeepsControls, ReleaseKeepsControls, UnlinkKeepsControls};
ghost use Rattle.law_world.specs.steps.control_queues.Rows.{LeaverKeepsControls};

use usb_base::Wire;

/// It stands of a driver that was just built.
pub fn new_driver_controls()
    ensures { NewDriverControls }
{}

/// Each event of the controller leaves it.
pub fn controller_keeps_controls<W: Wire>()
    ensures { ControllerKeepsControls W.begins W.transacts }
{}

/// So do commands, accepted or refused, and rows that touch no structure.
pub fn commands_leave_control_queues()
    ensures same { SameKeepControls }
    ensures commands { CommandsKeepControls }
    ensures silent { SilentKeepsControls }
{}

/// And so do the lend of a transfer, and the stores by which its first qTD is published.
pub fn a_lend_leaves_control_queues()
    ensures lend { LendKeepsControls }
    ensures store { StoreKeepsControls }
{}

/// An endpoint that is opened has a queue of which this stands.
pub fn an_open_leaves_control_queues()
    ensures lend { OpenLendKeepsControls }
    ensures link { OpenLinkKeepsControls }
{}

/// So does the row that gives back what was harvested, and those by which an endpoint leaves.
pub fn returns_leave_control_queues()
    ensures release { ReleaseKeepsControls }
    ensures unlink { UnlinkKeepsControls }
    ensures leaver { LeaverKeepsControls }
{}

/// All this is so of queues of any kind, whatever leads to their queue heads: the lend of a transfer, the lend of a new endpoint's structures, and the end of its
/// open, from where on its front stands at its tail.
pub fn lends_and_opens_of_any_queue()
    ensures lend { LendKeepsQueues }
    ensures opened { OpenLendIsWhole }
    ensures finished { OpenIsWhole }
    ensures link { LinkKeepsControls }
{}
