//! An endpoint on its way out of the ring (EHCI 1.0, 4.8.2), of the driver's content alone: why it has ended, as far as its report has it, and whether a walk of
//! the ring may still meet its queue head.
//!
//! The module has no code of its own: each function is a worked row, and its body is empty; its lemmas are for the laws above.

mod worked;

pub use worked::{a_cancelled_endpoint_leaves, an_endpoint_that_ended_before};
