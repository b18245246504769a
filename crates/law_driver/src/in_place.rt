//! Nothing of a driver is out of place (EHCI 1.0, 3, 4.6 and 4.8), at any moment of a run beside a controller: each structure stands in a run of its
//! own, and all runs are lent but those that a command has still to lend; the ring and the frame list have their members, and the fixed words of
//! queue heads are those of their endpoints.
//!
//! The module has no code of its own: each function is a law over the definitions of `drv_table`, and its body is empty. It puts together what
//! `run_owners`, `lent_runs`, `listed_members`, `listed_queues`, `ring_members` and `queue_head_words` say, so that no premise is left but that there
//! is room for a command that is offered, and that the controller writes only what is lent to it and leaves the first three words of queue heads.

ghost use Rattle.std.specs.Prelude.{◌≡◌, ℕ, ◌%◌, ◌≤◌, List, Ok};
ghost use Rattle.usb_base.specs.declared.commands.Cmd.{Cmd};
ghost use Rattle.word_mem.specs.Memory.{Mem};
ghost use Rattle.drv_table.specs.declared.content.Reserve.{Reserve};
ghost use Rattle.drv_table.specs.DriverContent.{DriverContent};
ghost use Rattle.drv_table.specs.Accepting.{Offered};
ghost use Rattle.drv_table.specs.Offers.{offered, IsOffered};
ghost use Rattle.drv_table.specs.Opening.{opening};
ghost use Rattle.drv_table.specs.Parts.{Parts};
ghost use Rattle.drv_table.specs.Rows.{driver_row, after_driver_row};
ghost use Rattle.law_driver.specs.in_place.InPlace.{IsInPlace};
ghost use Rattle.law_driver.specs.in_place.Run.{IsElsewhere, Move, StaysInPlace};

/// A driver that was just built, over a memory of whole pages, has everything in place.
pub fn opening_is_in_place()
    ensures { (n : ℕ) (room : Reserve) → 2048 ≤ n → n ≤ 262144 → n % 1024 ≡ 0 → IsInPlace (opening n room).memory (opening n room).driver }
{}

/// A command that is accepted, and for which there is room, keeps everything in place.
pub fn commands_keep_all_in_place()
    ensures { (d : DriverContent) (m : Mem) (cmd : Cmd) (o : Offered) → IsOffered d.room cmd → IsInPlace m d → offered d m cmd ≡ Ok o → IsInPlace o.memory o.driver }
{}

/// Each event of the driver does.
pub fn events_keep_all_in_place()
    ensures { (p : Parts) → IsInPlace p.memory p.driver → IsInPlace (after_driver_row (driver_row p) p).memory (after_driver_row (driver_row p) p).driver }
{}

/// And so does what the controller writes elsewhere.
pub fn the_controller_keeps_all_in_place()
    ensures { (d : DriverContent) (m new : Mem) → IsElsewhere d m new → IsInPlace m d → IsInPlace new d }
{}

/// So everything is in place at each moment of a run.
pub fn a_run_stays_in_place()
    ensures { (n : ℕ) (room : Reserve) (moves : List Move) → 2048 ≤ n → n ≤ 262144 → n % 1024 ≡ 0 → StaysInPlace (opening n room) moves }
{}
