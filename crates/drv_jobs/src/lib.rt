//! What the driver of the host controller does over several events beside its commands, as definitions (EHCI 1.0, 3.6.3 and 4.10.3;
//! USB 2.0, 5.8.5 and 9.4.5): it clears the halt of an endpoint.
//!
//! Such a job stands beside the content of the driver and above its rows (`drv_table`): specs/Jobs.antt has which event comes next
//! (`job_row`) and what stands after it (`after_job_row`), specs/JobOffers.antt what becomes of any command (`offered_any`). While there is
//! no job, both are those of the driver. `worked` has rows of these, computed.
#![tactic(auto)]

mod jobs;
pub mod worked;

pub use jobs::{Job, JobRow, OverlayWord};
