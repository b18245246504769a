//! Which runs of a driver the controller may touch (EHCI 1.0, 3): a run is kept from its taking until the one event that lends all that a
//! command took, and lent from then until it is given back. So where no command is unfinished each structure that stands is lent.
//!
//! The module has no code of its own: each function is a law over the definitions of `drv_table`, and its body is empty. A world whose
//! driver `AreLent` keeps it by `commands_keep_them` and `events_keep_them`; `run_owners` stands below it.

ghost use Rattle.std.specs.Prelude.{◌≡◌, ℕ, [], true, false, None, Some, Ok};
ghost use Rattle.usb_base.specs.declared.commands.Cmd.{Cmd};
ghost use Rattle.word_mem.specs.Memory.{Mem};
ghost use Rattle.mem_runs.specs.Book.{holding, Stands, slot_of};
ghost use Rattle.drv_table.specs.declared.content.Reserve.{Reserve};
ghost use Rattle.drv_table.specs.DriverContent.{DriverContent};
ghost use Rattle.drv_table.specs.Accepting.{Offered};
ghost use Rattle.drv_table.specs.Offers.{offered};
ghost use Rattle.drv_table.specs.Opening.{opening};
ghost use Rattle.drv_table.specs.Parts.{Parts};
ghost use Rattle.drv_table.specs.Rows.{driver_row, after_driver_row};
ghost use Rattle.claims_driver.specs.Owners.{Owner, HasRun};
ghost use Rattle.drv_table.specs.declared.content.Command.TheVariants as unfinished;
ghost use Rattle.claims_driver.specs.LentRuns.{still_lends, AreLent, IsLent};
ghost use Rattle.law_driver.specs.lent_runs.Lent.{LendsBlocks};

/// When the driver was built its two runs are lent.
pub fn opening_runs_are_lent()
    ensures { (n : ℕ) (room : Reserve) → AreLent (opening n room).driver }
{}

/// A command that is accepted takes runs, which are kept until it lends them.
pub fn commands_keep_them()
    ensures { (d : DriverContent) (m : Mem) (cmd : Cmd) (o : Offered) → AreLent d → offered d m cmd ≡ Ok o → AreLent o.driver }
{}

/// Each event of the driver keeps it: one of each command that took runs lends them all, and only lent runs are given back.
pub fn events_keep_them()
    ensures { (p : Parts) → AreLent p.driver → AreLent (after_driver_row (driver_row p) p).driver }
{}

/// Where no command is unfinished, all runs are lent.
pub fn all_are_lent_between_commands()
    ensures { (d : DriverContent) (b : ℕ) → d.command ≡ None → AreLent d → HasRun (slot_of d.book.slots b) → IsLent (slot_of d.book.slots b) }
{}

/// And so is each block of the structures and buffers that have an owner.
pub fn blocks_of_owners_are_lent()
    ensures { (d : DriverContent) (m : Mem) (owner : ℕ → Owner) → Stands (holding d.book m) → d.command ≡ None → AreLent d → LendsBlocks d m owner }
{}

/// Worked rows: an open and a transfer lend by their first event, new descriptors by the second, and a cancel has nothing to lend.
pub fn what_is_still_lent()
    ensures open { still_lends (Some (unfinished.Open 130)) 0 ≡ true }
    ensures opened { still_lends (Some (unfinished.Open 130)) 1 ≡ false }
    ensures transfer { still_lends (Some (unfinished.Publish 132 [])) 0 ≡ true }
    ensures stored { still_lends (Some (unfinished.Publish 132 [])) 1 ≡ false }
    ensures descriptors { still_lends (Some (unfinished.Iso 0 0 2)) 1 ≡ true }
    ensures linked { still_lends (Some (unfinished.Iso 0 0 2)) 2 ≡ false }
    ensures cancel { still_lends (Some (unfinished.Unchain 0)) 0 ≡ false }
    ensures none { still_lends None 0 ≡ false }
{}
