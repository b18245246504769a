//! Whose each run of blocks of a driver is (EHCI 1.0, 3.5, 3.6, 4.8 and 4.10): the frame list, the head of the ring, each queue head,
//! each inactive qTD at the end of a queue, and the qTDs and buffers of each transfer stand in runs of their own, and each is given back
//! once.
//!
//! The module has no code of its own: each function is a law over the definitions of `drv_table`, and its body is empty. A world whose
//! driver `HasOwners` keeps it by `commands_keep_owners` and `events_keep_owners`; `drv_table` and `mem_runs` stand below it.

pub mod worked;

ghost use Rattle.std.specs.Prelude.{◌≡◌, ◌≢◌, ℕ, ◌≤◌, Ok};
ghost use Rattle.usb_base.specs.declared.commands.Cmd.{Cmd};
ghost use Rattle.word_mem.specs.Memory.{Mem};
ghost use Rattle.mem_runs.specs.Book.{Holding, holding, Stands};
ghost use Rattle.drv_table.specs.declared.content.Reserve.{Reserve};
ghost use Rattle.drv_table.specs.DriverContent.{DriverContent};
ghost use Rattle.drv_table.specs.Accepting.{Offered};
ghost use Rattle.drv_table.specs.Offers.{offered};
ghost use Rattle.drv_table.specs.Opening.{opening};
ghost use Rattle.drv_table.specs.Parts.{Parts};
ghost use Rattle.drv_table.specs.Rows.{driver_row, after_driver_row};
ghost use Rattle.claims_driver.specs.Owners.{Owner};
ghost use Rattle.law_driver.specs.run_owners.Owners.{ShareNoBlock};
ghost use Rattle.law_driver.specs.run_owners.Due.{IsDue};
ghost use Rattle.law_driver.specs.run_owners.Accepts.{Accepts};
ghost use Rattle.claims_driver.specs.Leaving.{HasOwners};

/// A driver that was just built has its two runs, and nothing to give back.
#[tactic(auto, using(crate::proofs::lemmas::run_owners::Opened::opening_has_owners))]
pub fn opening_has_owners()
    ensures { (n : ℕ) (room : Reserve) → 2048 ≤ n → HasOwners (opening n room).driver }
{}

/// A command that is accepted takes runs that no one had.
#[tactic(auto, using(crate::proofs::lemmas::run_owners::Laws::commands_keep_owners))]
pub fn commands_keep_owners()
    ensures { (d : DriverContent) (m : Mem) (cmd : Cmd) (o : Offered) → Stands (holding d.book m) → HasOwners d → offered d m cmd ≡ Ok o → HasOwners o.driver }
{}

/// Each event of the driver keeps the runs of all that isn't given back, and gives back only what is owed.
#[tactic(auto, using(crate::proofs::lemmas::run_owners::Laws::events_keep_owners))]
pub fn events_keep_owners()
    ensures { (p : Parts) → HasOwners p.driver → HasOwners (after_driver_row (driver_row p) p).driver }
{}

/// Structures of different owners share no block.
#[tactic(auto, using(crate::proofs::lemmas::run_owners::Laws::owners_share_no_block))]
pub fn owners_share_no_block()
    ensures { (h : Holding) (owner : ℕ → Owner) (o q : Owner) → Stands h → o ≢ q → ShareNoBlock h owner o q }
{}

/// Each event comes for its reason: the next event of the unfinished command, the first of the leaving work, or a token to read.
#[tactic(auto, using(crate::proofs::lemmas::run_owners::Reasons::each_event_is_due))]
pub fn each_event_is_due()
    ensures { (p : Parts) → IsDue p (driver_row p) }
{}

/// Each command is accepted for its reason: it opens an endpoint, brings a transfer or a request, or cancels an endpoint.
#[tactic(auto, using(crate::proofs::lemmas::run_owners::Commands::each_command_has_its_reason))]
pub fn each_command_has_its_reason()
    ensures { (d : DriverContent) (m : Mem) (cmd : Cmd) (o : Offered) → offered d m cmd ≡ Ok o → Accepts d m o }
{}
