//! What each event of the driver changes, field by field (EHCI 1.0, 4.6 to 4.10): the footprints of its rows and of accepted commands.
//!
//! A law over some fields looks at the rows whose footprint has one of them, and at no other: `rows_change_their_footprints` is one
//! equation between whole contents, so one `subst` by it closes all other rows. proofs/Fields.antt has it as an equation for each field.
//! Endpoints and transfers change in few ways, so a law over them has a case for each way and none for a row.
//!
//! The crate has no code of its own: each function is a law over the definitions of `drv_table`, and its body is empty.
#![tactic(auto)]

pub mod worked;

ghost use Rattle.std.specs.Prelude.{◌≡◌, Option, Ok};
ghost use Rattle.usb_base.specs.declared.commands.Cmd.{Cmd};
ghost use Rattle.word_mem.specs.Memory.{Mem};
ghost use Rattle.drv_table.specs.declared.content.Command.{Command};
ghost use Rattle.drv_table.specs.declared.rows.DriverRow.{DriverRow};
ghost use Rattle.drv_table.specs.Accepting.{Offered};
ghost use Rattle.drv_table.specs.DriverContent.{DriverContent};
ghost use Rattle.drv_table.specs.Offers.{offered};
ghost use Rattle.drv_table.specs.Parts.{Parts};
ghost use Rattle.drv_table.specs.Rows.{after_driver_row};
ghost use Rattle.law_footprints.specs.Changes.{EndpointsStep, TransfersStep};
ghost use Rattle.law_footprints.specs.Footprint.{DriverStays, Stays, everything, footprint, merged, nothing, offer_footprint};

/// Each row leaves all fields as they were but those of its footprint.
#[tactic(auto, using(crate::proofs::Frame::frame))]
pub fn rows_change_their_footprints()
    ensures { (row : DriverRow) (p : Parts) (o : Option Command) → p.driver.command ≡ o
        → Stays (footprint row o) p (after_driver_row row p) }
{}

/// A command that is accepted leaves all fields of the driver as they were but those of its footprint.
#[tactic(auto, using(crate::proofs::Accepted::accept_frame))]
pub fn commands_change_their_footprints()
    ensures { (d : DriverContent) (m : Mem) (cmd : Cmd) (o : Offered) → offered d m cmd ≡ Ok o
        → DriverStays (offer_footprint cmd) d o.driver }
{}

/// A row changes no endpoint, or one, in one of five ways.
#[tactic(auto, using(crate::proofs::EndpointsChanged::endpoints_step))]
pub fn rows_change_one_endpoint()
    ensures { (row : DriverRow) (p : Parts) (o : Option Command) → p.driver.command ≡ o
        → EndpointsStep p.driver.endpoints (after_driver_row row p).driver.endpoints }
{}

/// A row leaves each transfer as it was, or changes it in one of four ways; none comes or goes.
#[tactic(auto, using(crate::proofs::TransfersChanged::transfers_step))]
pub fn rows_change_transfers()
    ensures { (row : DriverRow) (p : Parts) (o : Option Command) → p.driver.command ≡ o
        → TransfersStep p.driver.transfers (after_driver_row row p).driver.transfers }
{}

/// With no field of the new content it is the old one, and with each field the new one.
pub fn all_or_nothing()
    ensures old { (p : Parts) (q : Parts) → merged nothing p q ≡ p }
    ensures new { (p : Parts) (q : Parts) → merged everything p q ≡ q }
{}
