//! The chains of the periodic frame list (EHCI 1.0, 3.1 and 4.6): which structures stand in each frame, in what order, and which links
//! are stored where one of them is linked or unlinked.
//!
//! `specs/Chains.antt` has the lists, `specs/Order.antt` the order of the frames in which the stores come, `specs/Stores.antt` the links
//! while the stores are made, `specs/Classes.antt` the classes of one period and phase, in which a predecessor is found without a list
//! for each frame, `specs/Boundary.antt` when an unlinked member may be given back. The laws are functions with an empty body; the
//! boundary alone has code.
#![tactic(auto)]

mod boundary;
pub mod laws;
mod members;
pub mod worked;

pub use boundary::Boundary;
pub use members::{Descriptor, Member, Predecessor, QueueHead};
