//! The report of a world of bulk and control endpoints (USB 2.0, 8.6): where what is told of each IN endpoint begins the packets that the script has for it,
//! its IN streams are right.
//!
//! The module has no code of its own: each function is a law over the definitions of `bus_world` and `claims_report`, and its body is empty.

mod laws;
mod worked;

pub use laws::{report_is_printed, report_is_right};
pub use worked::{an_in_and_an_out, before_the_first_line, closing_lines};
