//! The report as text: the lines of what was reported, and the lines that close it.
//!
//! `print_report` is what others call, then `print_pending`, `print_taken` and `print_acted` for each endpoint that was
//! opened; each writes to any sink and takes no memory. The reported states are those of a host's endpoints: Halted
//! after a STALL, three errors or a babble (EHCI 1.0, 4.15.1), a missed complete-split (EHCI 1.0, 4.12.2), the error
//! bits of isochronous slots (EHCI 1.0, 3.3.2 and 3.4.3). Beside it, `script_text` reads the scripts.
#![tactic(auto)]

mod closing;
mod report;
mod text;
pub mod worked;

pub use closing::{print_acted, print_pending, print_taken};
pub use report::print_report;
pub use text::Text;
