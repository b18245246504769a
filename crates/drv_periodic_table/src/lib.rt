//! What the driver of the host controller has of its periodic endpoints, and what it writes and reads of them, as definitions (EHCI 1.0,
//! 3.1, 3.3, 3.4, 4.6, 4.7 and 4.12.3).
//!
//! specs/Periodic.antt has the content (`PeriodicContent`): the plan of placements, the members of the frame list, what is known of each
//! isochronous descriptor, and what leaves the list. specs/Linking.antt tells how members are linked and unlinked one after the other.
//! specs/Descriptors.antt has the words of a new descriptor and what its words tell once they were served, specs/Frames.antt the frames of
//! a command's descriptors. `worked` has rows of these, computed. Above it stands `drv_table`, which has the events of the driver;
//! below it `drv_periodic`, which has the frame list, and `bandwidth`, which has the plan.
#![tactic(auto)]

mod content;
pub mod worked;

pub use content::{DescriptorNote, Removal, Removed};
