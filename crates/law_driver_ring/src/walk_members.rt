//! Where a walk of the ring may go (EHCI 1.0, 4.8 and 4.8.2): its cursor and the copy in hand name the head, a queue head in the ring, or one that
//! has left since the last answered doorbell was rung, and so does the copy's link, whatever was stored since the copy was read.
//!
//! The module has no code of its own: each function is a law over the definitions of `async_walk` and `drv_table`, and its body is empty.
//! `the_walk_meets_members` says it of each event of the walk; `ring_members` and `queue_head_words` stand below it.

pub mod numbers;
pub mod worked;

ghost use Rattle.std.specs.Prelude.{◌≡◌, ℕ, Ok};
ghost use Rattle.usb_base.specs.declared.commands.Cmd.{Cmd};
ghost use Rattle.word_mem.specs.Memory.{Mem};
ghost use Rattle.drv_table.specs.Accepting.{Offered};
ghost use Rattle.drv_table.specs.Offers.{offered};
ghost use Rattle.op_registers.specs.RegisterFile.{RegisterFile};
ghost use Rattle.async_walk.specs.Walk.{Walk, new_walk, begun, stopped};
ghost use Rattle.async_walk.specs.Rows.{WalkPlace, at_event, event_row, Leads};
ghost use Rattle.drv_table.specs.declared.content.Reserve.{Reserve};
ghost use Rattle.drv_table.specs.DriverContent.{DriverContent};
ghost use Rattle.drv_table.specs.Opening.{opening};
ghost use Rattle.drv_table.specs.Parts.{Parts};
ghost use Rattle.drv_table.specs.Rows.{driver_row, after_driver_row};
ghost use Rattle.claims_driver.specs.Walk.{IsWalkIn, IsBellIn};
ghost use Rattle.law_driver_ring.specs.walk_members.Reached.{KeepsWalk};
ghost use Rattle.law_driver_ring.specs.walk_members.Bell.{KeepsBell};

use usb_base::Wire;

/// A new walk begins at the head.
pub fn a_new_walk_begins_at_the_head()
    ensures { (n : ℕ) (room : Reserve) → IsWalkIn (opening n room).driver (opening n room).registers new_walk }
{}

/// Each event of the walk goes on to a queue head that it may meet: where the head is read and the doorbell answered, those of the rung batch
/// are met no more.
pub fn the_walk_meets_members<W: Wire>()
    ensures { (d : DriverContent) (p : WalkPlace) (before : W) (new : WalkPlace) (after : W) → Leads W.transacts (event_row p) (at_event p) before new after → KeepsWalk d p new }
{}

/// The end of a microframe and the begin of the next leave the walk where it was.
pub fn microframes_leave_the_walk()
    ensures stopped { (d : DriverContent) (r : RegisterFile) (w : Walk) → IsWalkIn d r w → IsWalkIn d r (stopped w) }
    ensures begun { (d : DriverContent) (r : RegisterFile) (w : Walk) (left : ℕ) → IsWalkIn d r w → IsWalkIn d r (begun w left) }
{}

/// Each event of the driver leaves the walk among the queue heads that it may meet: one that leaves the ring is still one of them, until the
/// doorbell that was set after it is answered.
pub fn the_driver_leaves_the_walk()
    ensures { (p : Parts) (w : Walk) → IsBellIn p.driver p.registers → IsWalkIn p.driver p.registers w
        → IsWalkIn (after_driver_row (driver_row p) p).driver (after_driver_row (driver_row p) p).registers w }
{}

/// And so does a command that is accepted.
pub fn commands_leave_the_walk()
    ensures { (d : DriverContent) (m : Mem) (cmd : Cmd) (o : Offered) (r : RegisterFile) (w : Walk) → offered d m cmd ≡ Ok o → IsWalkIn d r w → IsWalkIn o.driver r w }
{}

/// Content and registers agree on the doorbell: each event of the driver keeps it.
pub fn the_driver_keeps_the_bell()
    ensures { (p : Parts) → IsBellIn p.driver p.registers → IsBellIn (after_driver_row (driver_row p) p).driver (after_driver_row (driver_row p) p).registers }
{}

/// And so does each event of the walk, which answers the doorbell where the head is read.
pub fn the_walk_keeps_the_bell<W: Wire>()
    ensures { (d : DriverContent) (p : WalkPlace) (before : W) (new : WalkPlace) (after : W) → Leads W.transacts (event_row p) (at_event p) before new after → KeepsBell d p new }
{}
