//! What the driver of the host controller has, and its events one by one, as definitions (EHCI 1.0, 4.8 to 4.10).
//!
//! specs/DriverContent.antt has the content, specs/Offers.antt what becomes of a command (`offered`), specs/Rows.antt which event comes next
//! (`driver_row`) and what stands after it (`after_driver_row`), specs/Opening.antt the host when its driver was built. `worked` has rows of these,
//! computed. The code of a driver whose calls meet these definitions comes above it; beside it stands `mem_runs`, which has the runs of blocks.
#![tactic(auto)]

mod content;
mod rows;
pub mod worked;

pub use content::{
    Alternate, Bell, Command, Endpoint, Mend, Part, QtdNote, Reserve, Slots, Sort, Stage, Transfer,
    Turn,
};
pub use rows::{DriverRow, DriverStep, Found};
