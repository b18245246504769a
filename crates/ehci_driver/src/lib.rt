//! The driver of the host controller, in single steps (EHCI 1.0, 4.6 to 4.10): it opens endpoints, publishes transfers, harvests what the
//! controller has done, and gives back what has left.
//!
//! `Driver::offer` accepts a command or refuses it, and `Driver::step` makes one event. A contract sees the driver as the content of
//! `drv_table`, specs/DriverContent.antt; what an accepted command leaves is `offered`, and each event is one row (its specs/Rows.antt).
//! `DriverAtWork` is the driver with a job beside its commands: it clears the halt of an endpoint (`drv_jobs`).
//! Beside it stand `mem_runs`, which has its runs of blocks, `drv_frames_content`, which has the plan and the frame list, and
//! `word_mem`, whose words it shares with the controller.
#![tactic(auto)]

mod at_work;
mod clear_offers;
mod clears;
mod driver;
mod events;
mod frames;
mod harvests;
mod hub_requests;
mod offers;
mod opening;
mod periodic;
mod releases;
mod removals;
mod row;
mod stages;
mod told;
mod transfers;
mod working;

pub use at_work::DriverAtWork;
pub use driver::Driver;
pub use drv_table::{DriverStep, Reserve};
