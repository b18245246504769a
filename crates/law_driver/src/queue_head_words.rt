//! The words of queue heads that no event writes: the endpoint's characteristics and capabilities (EHCI 1.0, 3.6.2). Of each queue head that a
//! walk may meet they are those of its endpoint, and the head alone is the head of the reclamation list.
//!
//! The module has no code of its own: each function is a law over the definitions of `drv_table`, and its body is empty. A world whose
//! driver `HasOwners`, whose memory is `IsSound` and `AreFixed`, keeps the last by `commands_keep_the_fixed_words` and
//! `events_keep_the_fixed_words`, and its overlays by `overlay::events_leave_the_overlay`; `ring_members` stands below it.

pub mod overlay;
pub mod worked;

ghost use Rattle.std.specs.Prelude.{◌≡◌, ℕ, ◌≤◌, Ok};
ghost use Rattle.usb_base.specs.declared.commands.Cmd.{Cmd};
ghost use Rattle.word_mem.specs.Memory.{Mem};
ghost use Rattle.drv_table.specs.declared.content.Reserve.{Reserve};
ghost use Rattle.drv_table.specs.DriverContent.{DriverContent};
ghost use Rattle.drv_table.specs.Accepting.{Offered};
ghost use Rattle.drv_table.specs.Offers.{offered};
ghost use Rattle.drv_table.specs.Opening.{opening};
ghost use Rattle.drv_table.specs.Parts.{Parts};
ghost use Rattle.drv_table.specs.Rows.{driver_row, after_driver_row};
ghost use Rattle.law_driver.specs.in_place.InPlace.{IsSound};
ghost use Rattle.claims_driver.specs.InPlace.{AreFixed};
ghost use Rattle.law_driver.specs.queue_head_words.Fixed.{KeepsFixed};

/// When the driver was built the head has its words.
pub fn opening_has_fixed_words()
    ensures { (n : ℕ) (room : Reserve) → 2048 ≤ n → AreFixed (opening n room).memory (opening n room).driver }
{}

/// A command that is accepted leaves the words of all queue heads, and writes those of a new one.
pub fn commands_keep_the_fixed_words()
    ensures { (d : DriverContent) (m : Mem) (cmd : Cmd) (o : Offered) → offered d m cmd ≡ Ok o → KeepsFixed d m o }
{}

/// No event of the driver writes them.
pub fn events_keep_the_fixed_words()
    ensures { (p : Parts) → IsSound p.memory p.driver → AreFixed p.memory p.driver → AreFixed (after_driver_row (driver_row p) p).memory (after_driver_row (driver_row p) p).driver }
{}
