//! The frame list of a driver stays in order (EHCI 1.0, 4.6): queue heads by period, phase and order of opening, descriptors by frame, each in
//! range, and no two members of one name, at each command and event.
//!
//! The module has no code of its own: each function is a law over the definitions of `drv_table`, and its body is empty.

ghost use Rattle.std.specs.Prelude.{◌≡◌, ℕ, Ok};
ghost use Rattle.usb_base.specs.declared.commands.Cmd.{Cmd};
ghost use Rattle.word_mem.specs.Memory.{Mem};
ghost use Rattle.drv_table.specs.declared.content.Reserve.{Reserve};
ghost use Rattle.drv_table.specs.DriverContent.{DriverContent};
ghost use Rattle.drv_table.specs.Accepting.{Offered};
ghost use Rattle.drv_table.specs.Offers.{offered};
ghost use Rattle.drv_table.specs.Opening.{opening};
ghost use Rattle.drv_table.specs.Parts.{Parts};
ghost use Rattle.drv_table.specs.Rows.{driver_row, after_driver_row};
ghost use Rattle.law_driver.specs.ordered_list.Ordered.{IsOrdered};

/// When the driver was built the list is empty.
pub fn opening_list_is_in_order()
    ensures { (n : ℕ) (room : Reserve) → IsOrdered (opening n room).driver }
{}

/// Each accepted command leaves it in order.
pub fn commands_keep_the_order()
    ensures { (d : DriverContent) (m : Mem) (cmd : Cmd) (o : Offered) → IsOrdered d → offered d m cmd ≡ Ok o → IsOrdered o.driver }
{}

/// Each event of the driver does.
pub fn events_keep_the_order()
    ensures { (p : Parts) → IsOrdered p.driver → IsOrdered (after_driver_row (driver_row p) p).driver }
{}
