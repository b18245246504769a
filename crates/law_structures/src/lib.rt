//! Structures that stand in the memory of a controller and its driver (EHCI 1.0, 3.3 to 3.6): what is told of them, and what writes leave
//! of it.
//!
//! - `lent_structures`: Structures in memory that runs lent to the controller hold (EHCI 1.0, 3.5, 3.6 and 4.10): what is told of them, of what a transaction
//!   settles in them and of what is written back.
//!
//! The crate has no code of its own: each function is a law, and its body is empty.
#![tactic(auto)]

pub mod lent_structures;
