//! The budgets of the periodic endpoints of a driver (USB 2.0, 5.11.3 and 11.18; EHCI 1.0, 4.7 and 4.12): at each moment all that is
//! placed fits, and a periodic endpoint is refused for want of a placement exactly where none that is allowed fits beside the others.
//!
//! The crate has no code of its own: each function is a law over the definitions of `drv_table` and `bandwidth`, and its body is empty.
//! A world whose driver `KeepsBudgets` keeps it by `commands_keep_budgets` and `events_keep_budgets`.
//!
//! The crate has no code of its own: each function is a law, and its body is empty.
#![tactic(auto)]

ghost use Rattle.std.specs.Prelude.{◌≡◌, ◌↔◌, ℕ, ◌≤◌, true, Ok, Err};
ghost use Rattle.usb_base.specs.declared.commands.Cmd.{Cmd};
ghost use Rattle.usb_base.specs.declared.commands.Cmd.TheVariants.{OpenEp};
ghost use Rattle.usb_base.specs.declared.endpoints.EpDesc.{EpDesc};
ghost use Rattle.usb_base.specs.declared.reports.OfferError.TheVariants.{NoPlacement};
ghost use Rattle.word_mem.specs.Memory.{Mem};
ghost use Rattle.drv_periodic_table.specs.Periodic.{is_periodic};
ghost use Rattle.drv_table.specs.declared.content.Reserve.{Reserve};
ghost use Rattle.drv_table.specs.declared.rows.DriverRow.{DriverRow};
ghost use Rattle.drv_table.specs.DriverContent.{DriverContent};
ghost use Rattle.drv_table.specs.Accepting.{Offered};
ghost use Rattle.drv_table.specs.Offers.{IsOffered, offered};
ghost use Rattle.drv_table.specs.Opening.{opening};
ghost use Rattle.drv_table.specs.Parts.{Parts};
ghost use Rattle.drv_table.specs.Rows.{driver_row, after_driver_row};
ghost use Rattle.law_admission.specs.Budgets.{KeepsBudgets, account_of, account_after};
ghost use Rattle.drv_table.specs.PeriodicOpens.{PassesBefore, BreaksBudgets};
ghost use Rattle.law_admission.specs.Opens.{IsPlaced, AccountAfter};

pub mod worked;

/// A driver that was just built has nothing placed, and room for each endpoint that may be opened.
#[tactic(auto, using(crate::proofs::Budgets::opening_keeps_budgets))]
pub fn opening_keeps_budgets()
    ensures { (n : ℕ) (room : Reserve) → KeepsBudgets (account_of (opening n room).driver) }
{}

/// Each accepted command leaves the plan as it was, but for the open of a periodic endpoint: that adds the best placement that fits.
#[tactic(auto, using(crate::proofs::Commands::commands_place_the_best))]
pub fn commands_place_the_best()
    ensures { (d : DriverContent) (m : Mem) (cmd : Cmd) (o : Offered) → offered d m cmd ≡ Ok o → AccountAfter d cmd o }
{}

/// Each event leaves the plan as it was, but for the release of what a cancelled periodic endpoint had: that takes its placement out.
#[tactic(auto, using(crate::proofs::Events::events_take_out_what_left))]
pub fn events_take_out_what_left()
    ensures { (row : DriverRow) (p : Parts) → account_of (after_driver_row row p).driver ≡ account_after row p.driver }
{}

/// A command that is accepted keeps the budgets.
#[tactic(auto, using(crate::proofs::Budgets::commands_keep_budgets))]
pub fn commands_keep_budgets()
    ensures { (d : DriverContent) (m : Mem) (cmd : Cmd) (o : Offered) → IsOffered d.room cmd → KeepsBudgets (account_of d) → offered d m cmd ≡ Ok o → KeepsBudgets (account_of o.driver) }
{}

/// Each event of the driver keeps the budgets.
pub fn events_keep_budgets()
    ensures { (p : Parts) → KeepsBudgets (account_of p.driver) → KeepsBudgets (account_of (after_driver_row (driver_row p) p).driver) }
{}

/// Each accepted command and each event leaves what placements follow as it was.
#[tactic(auto, using(crate::proofs::Budgets::command_rules, crate::proofs::Budgets::event_rules))]
pub fn placements_follow_the_same_rules()
    ensures commands { (d : DriverContent) (m : Mem) (cmd : Cmd) (o : Offered) → offered d m cmd ≡ Ok o → o.driver.periodic.plan.rules ≡ d.periodic.plan.rules }
    ensures events { (p : Parts) → (after_driver_row (driver_row p) p).driver.periodic.plan.rules ≡ p.driver.periodic.plan.rules }
{}

/// A periodic endpoint that passes the checks before, and for which there is room, is refused for want of a placement exactly where each
/// allowed one breaks a budget beside what is placed.
#[tactic(auto, using(crate::proofs::Refusals::refused_where_none_fits))]
pub fn refused_where_none_fits()
    ensures { (d : DriverContent) (m : Mem) (x : EpDesc) → KeepsBudgets (account_of d) → 1 ≤ d.room.endpoints → PassesBefore d x → (offered d m (OpenEp x) ≡ Err NoPlacement) ↔ BreaksBudgets d x }
{}

/// A periodic endpoint that is accepted has an allowed placement that fits beside what was placed, with the least greatest microframe sum,
/// the first of these.
#[tactic(auto, using(crate::proofs::Refusals::accepted_where_it_fits))]
pub fn accepted_where_it_fits()
    ensures { (d : DriverContent) (m : Mem) (x : EpDesc) (o : Offered) → is_periodic x.kind ≡ true → offered d m (OpenEp x) ≡ Ok o → IsPlaced d x o }
{}
