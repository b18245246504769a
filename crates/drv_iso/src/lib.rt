//! The descriptors of an isochronous endpoint as the driver writes and reads them (EHCI 1.0, 3.3, 3.4, 4.7 and
//! 4.12.3): iTDs, and siTDs behind a hub's translator.
//!
//! `slots_of` tells the slots of an endpoint's descriptors, `take_descriptors` takes their runs, `write_descriptor` writes one and the bytes
//! that it sends, `descriptor_found` reads whether it was served, and `append_told` the bytes that were moved. Their values are those of
//! specs/Descriptors.antt of `drv_periodic_table` and specs/Offers.antt of `drv_table`. Beside it stands `drv_queues`, which writes queues.
#![tactic(auto)]

mod descriptors;
mod reading;
mod runs;
mod slots;
mod splits;
mod words;
mod writing;

pub use descriptors::new_itd;
pub use reading::{append_told, descriptor_found};
pub use runs::take_descriptors;
pub use slots::{slots_of, total_bytes};
pub use splits::new_sitd;
pub use writing::{run_count, write_descriptor};
