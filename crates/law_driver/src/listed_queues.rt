//! The queue heads of interrupt endpoints in the frame list of a driver (EHCI 1.0, 4.6): each endpoint that is in its frames has its own there, from
//! its opening until the last store that unlinks it. `listed_members` says the other half, that no other queue head is there.
//!
//! The module has no code of its own: each function is a law over the definitions of `drv_table`, and its body is empty. A world whose
//! driver `HasOwners`, `IsListed` and `HasQueues` keeps the third by `commands_keep_queue_heads` and `events_keep_queue_heads`.

pub mod worked;

ghost use Rattle.std.specs.Prelude.{ℕ};
ghost use Rattle.usb_base.specs.declared.commands.Cmd.{Cmd};
ghost use Rattle.word_mem.specs.Memory.{Mem};
ghost use Rattle.mem_runs.specs.Book.{holding, Stands};
ghost use Rattle.drv_table.specs.declared.content.Reserve.{Reserve};
ghost use Rattle.drv_table.specs.DriverContent.{DriverContent};
ghost use Rattle.drv_table.specs.Offers.{IsOffered};
ghost use Rattle.drv_table.specs.Opening.{opening};
ghost use Rattle.drv_table.specs.Parts.{Parts};
ghost use Rattle.drv_table.specs.Rows.{driver_row, after_driver_row};
ghost use Rattle.claims_driver.specs.Leaving.{HasOwners};
ghost use Rattle.law_driver.specs.listed_members.Members.{IsListed};
ghost use Rattle.law_driver.specs.listed_queues.Queues.{HasQueues, LinksQueues, KeepsQueues};

/// When the driver was built there is no endpoint, and room for the queue heads of all that may be opened.
pub fn opening_has_queue_heads()
    ensures { (n : ℕ) (room : Reserve) → HasQueues (opening n room).driver }
{}

/// A command that is accepted, and for which there is room, keeps them: the queue head of an interrupt endpoint that is opened is always linked, since
/// its name is new, its placement is one of the plan's, and there is room for it.
pub fn commands_keep_queue_heads()
    ensures { (d : DriverContent) (m : Mem) (cmd : Cmd) → Stands (holding d.book m) → HasOwners d → IsOffered d.room cmd → IsListed d → KeepsQueues d m cmd }
{}

/// Each event of the driver keeps them: only the last store that unlinks one takes it out, and its endpoint leaves its frames with it.
pub fn events_keep_queue_heads()
    ensures { (p : Parts) → HasOwners p.driver → IsListed p.driver → HasQueues p.driver → HasQueues (after_driver_row (driver_row p) p).driver }
{}

/// So each endpoint with a queue that is in its frames has its queue head linked, by its placement.
pub fn queue_heads_are_linked()
    ensures { (d : DriverContent) → HasOwners d → HasQueues d → LinksQueues d }
{}
