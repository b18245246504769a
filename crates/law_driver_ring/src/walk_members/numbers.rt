//! No endpoint's queue head is taken for the head of the reclamation list (EHCI 1.0, 3.6.2 and 4.8): its address and its number fit their fields,
//! so bit H stays 0.
ghost use Rattle.std.specs.Prelude.{◌≡◌, ℕ, false, Ok};
ghost use Rattle.usb_base.specs.declared.commands.Cmd.{Cmd};
ghost use Rattle.usb_base.specs.declared.endpoints.EpDesc.{EpDesc};
ghost use Rattle.word_mem.specs.Memory.{Mem};
ghost use Rattle.link_words.specs.Layout.{is_set};
ghost use Rattle.drv_table.specs.DriverContent.{DriverContent};
ghost use Rattle.drv_table.specs.Accepting.{Offered};
ghost use Rattle.drv_table.specs.Offers.{offered};
ghost use Rattle.drv_table.specs.Parts.{Parts};
ghost use Rattle.drv_table.specs.Rows.{driver_row, after_driver_row};
ghost use Rattle.claims_driver.specs.InPlace.{characteristics};
ghost use Rattle.law_driver_ring.specs.walk_members.Reached.{AreNoHeads, OpensNumbered};
ghost use Rattle.claims_driver.specs.Walk.{IsNumbered, AreNumbered};

/// Bit 15 of the characteristics of an endpoint whose numbers fit is 0.
pub fn a_numbered_endpoint_is_no_head()
    ensures { (x : EpDesc) → IsNumbered x → is_set 15 (characteristics x) ≡ false }
{}

/// So no endpoint of a driver whose endpoints' numbers fit is a head.
pub fn numbered_endpoints_are_no_heads()
    ensures { (d : DriverContent) → AreNumbered d → AreNoHeads d }
{}

/// A command that is accepted keeps their numbers, and brings those of a new endpoint.
pub fn commands_keep_the_numbers()
    ensures { (d : DriverContent) (m : Mem) (cmd : Cmd) (o : Offered) → OpensNumbered cmd → AreNumbered d → offered d m cmd ≡ Ok o → AreNumbered o.driver }
{}

/// No event of the driver writes an endpoint's description.
pub fn events_keep_the_numbers()
    ensures { (p : Parts) → AreNumbered p.driver → AreNumbered (after_driver_row (driver_row p) p).driver }
{}
