//! Admission of periodic endpoints under the budgets of microframes, of frames below a hub and of translators
//! (USB 2.0, 5.11.3 and 11.18; EHCI 1.0, 4.7 and 4.12).
//!
//! `Plan::admit` answers the best placement of an endpoint, or why there is none; `Plan::remove` and `Plan::load` stand beside it.
#![tactic(auto)]

mod accounts;
mod asks;
mod choice;
mod frames;
mod hub_pool;
mod hub_sums;
mod limits;
mod masks;
mod options;
mod placements;
mod plan;
mod search;
mod shapes;
mod table;
mod tables;
mod translators;
pub mod worked;

pub use placements::{Placed, Placement, Refused, Want};
pub use plan::Plan;
pub use table::Table;
