//! Whose the words of memory are (EHCI 1.0, 3.3, 3.4, 3.5, 3.6, 4.7.1, 4.10 and 4.12.3): each event of the controller writes words of its
//! own alone, and no event of the driver and no command writes one of these.
ghost use Rattle.law_world.specs.memory.Owners.{RunsTellOwners, RunsWriteTheirOwn, DriverLeavesControllers, CommandLeavesControllers};
ghost use Rattle.law_world.specs.memory.Owners.{TextsKeepToOwners};

use usb_base::Wire;

/// Where both walks are over structures that memory tells, what the controller's words are is told.
pub fn runs_tell_owners()
    ensures { RunsTellOwners }
{}

/// There each event of the controller writes words of its own alone.
pub fn runs_write_their_own<W: Wire>()
    ensures { RunsWriteTheirOwn W.begins W.transacts }
{}

/// In a world with endpoints of every kind no event of the driver writes a word of the controller, and no command does.
pub fn others_leave_the_controllers_words()
    ensures driver { DriverLeavesControllers }
    ensures command { CommandLeavesControllers }
{}

/// So it is from each moment to the next, of each script that a text spells.
pub fn texts_keep_to_owners()
    ensures { TextsKeepToOwners }
{}
