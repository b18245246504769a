//! The summary of a run of the load script: what its report counts, and one line that tells it.
//!
//! `summary_of` counts over a world, `print_summary` writes the line. Contracts see both as `summary_of` and `summary_line` of
//! specs/Summary.antt. Beside it, `bus_world` prints the report itself, and `script_load` writes the script.
#![tactic(auto)]

mod counting;
mod printing;
mod summary;
mod text;
pub mod worked;

pub use counting::summary_of;
pub use printing::print_summary;
pub use summary::Summary;
