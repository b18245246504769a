//! The streams of the endpoints at high speed of a world with endpoints of every kind (EHCI 1.0, 4.6 to 4.11; USB 2.0, 5.7, 5.8, 8.5 and
//! 8.6): both sides of the pipe of each bulk and interrupt endpoint agree, whatever else is open; and the streams of the report are right.
//!
//! - `below_hubs`: Those of bulk endpoints below hubs, at each step of the driver.
//! - `hub_setups`, `setups_worked`: A hub hears only requests of the script's `control` lines to it (USB 2.0, 11.24).
//! - `keeping`: The streams of the report are right at each moment of each script, and after its run.
//! - `piped_events`: Both sides of each pipe agree at each moment of each script: it stays at each event and at each command.
//! - `reports`, `reports_worked`: Where their pipes agree the streams of the report are right (EHCI 1.0, 4.6, 4.8 and 4.10; USB 2.0, 5.7,
//!   5.8, 8.5 and 8.6).
//! - `sent_events`: The qTDs of each OUT endpoint are sent whole and in turn, so too.
//! - `takers`: Each OUT endpoint has its taker on the bus; and where what it took begins what was put, so it is in the report.
//! - `what_was_put`: What each device took begins what was put, so the OUT streams are right too.
//! - `worked`, `below_worked`, `late_worked`, `puts_worked`: Worked rows.
//!
//! The module has no code of its own: each function is a law, and its body is empty.

pub mod below_hubs;
pub mod below_worked;
pub mod hub_setups;
pub mod keeping;
pub mod late_worked;
pub mod piped_events;
pub mod puts_worked;
pub mod reports;
pub mod reports_worked;
pub mod sent_events;
pub mod setups_worked;
pub mod takers;
pub mod what_was_put;
pub mod worked;
