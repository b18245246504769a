//! What stands in the frame list of a driver (EHCI 1.0, 4.6 and 4.7): the queue heads of interrupt endpoints that are in their frames, and of
//! isochronous endpoints the descriptors that wait in their frames, or were harvested and aren't unlinked yet; while a command links or
//! unlinks them, as far as it has come. Nothing that was given back stands there.
//!
//! The module has no code of its own: each function is a law over the definitions of `drv_table`, and its body is empty. A world whose
//! driver `HasOwners` and `IsListed` keeps the second by `commands_keep_the_list` and `events_keep_the_list`; `run_owners` stands below it.

pub mod worked;

ghost use Rattle.std.specs.Prelude.{◌≡◌, ℕ, Ok};
ghost use Rattle.usb_base.specs.declared.commands.Cmd.{Cmd};
ghost use Rattle.word_mem.specs.Memory.{Mem};
ghost use Rattle.mem_runs.specs.Book.{holding, Stands};
ghost use Rattle.drv_table.specs.declared.content.Reserve.{Reserve};
ghost use Rattle.drv_table.specs.DriverContent.{DriverContent};
ghost use Rattle.drv_table.specs.Accepting.{Offered};
ghost use Rattle.drv_table.specs.Offers.{offered, IsOffered};
ghost use Rattle.drv_table.specs.Opening.{opening};
ghost use Rattle.drv_table.specs.Parts.{Parts};
ghost use Rattle.drv_table.specs.Rows.{driver_row, after_driver_row};
ghost use Rattle.claims_driver.specs.Leaving.{HasOwners};
ghost use Rattle.law_driver.specs.listed_members.Listed.{HaveRuns};
ghost use Rattle.claims_driver.specs.FrameListMembers.{LinksWaiting};
ghost use Rattle.law_driver.specs.listed_members.Members.{IsListed};

/// When the driver was built nothing is in the frame list.
pub fn opening_list_has_its_members()
    ensures { (n : ℕ) (room : Reserve) → IsListed (opening n room).driver }
{}

/// A command that is accepted, and for which there is room, begins to link its members, or to unlink those of an endpoint.
pub fn commands_keep_the_list()
    ensures { (d : DriverContent) (m : Mem) (cmd : Cmd) (o : Offered) → Stands (holding d.book m) → HasOwners d → IsOffered d.room cmd → IsListed d → offered d m cmd ≡ Ok o → IsListed o.driver }
{}

/// Each event of the driver keeps the members: a store of the list links or unlinks one, what is to be unlinked is there, and what is given back
/// isn't any more.
pub fn events_keep_the_list()
    ensures { (p : Parts) → HasOwners p.driver → IsListed p.driver → IsListed (after_driver_row (driver_row p) p).driver }
{}

/// Each member begins a run of its own endpoint or transfer, which wasn't given back.
pub fn members_have_runs()
    ensures { (d : DriverContent) → (has : HasOwners d) → IsListed d → HaveRuns d has.owner }
{}

/// Where no command is unfinished, each descriptor that waits for its harvest in a frame is linked there.
pub fn waiting_descriptors_are_linked()
    ensures { (d : DriverContent) → IsListed d → LinksWaiting d }
{}
