//! What a driver does for the endpoints that have a place in the frame list (EHCI 1.0, 4.6 and 4.7): it chooses the frames of isochronous
//! descriptors, writes and links them, tells what their slots moved, and gives back what left the list.
//!
//! `write_descriptors`, `give_frames`, `write_links` and `go_on` serve a command, `report_descriptor` a harvest, `free_placed` a release. Their
//! values are those of specs/Rows.antt and specs/Offers.antt of `drv_table`. Beside it stand `drv_frames_content`, which has the plan and the list, and
//! `drv_harvests`, which does the same for the ring; `ehci_driver`, whose events call it, stands above.
#![tactic(auto)]

mod descriptors;
mod framing;
mod kinds;
mod linking;
mod placing;
mod releases;
mod reports;
mod rooms;
mod spans;

pub use descriptors::write_descriptors;
pub use framing::{give_frames, write_links};
pub use kinds::spans_too_long;
pub use linking::{go_on, queue_descriptors, queue_leaving, unlink_descriptor};
pub use placing::{NewPlace, new_placed, place_endpoint};
pub use releases::{free_descriptor, free_placed, let_placed_go};
pub use reports::report_descriptor;
pub use rooms::room_for_descriptors;
pub use spans::{blocks_from, of_command};
