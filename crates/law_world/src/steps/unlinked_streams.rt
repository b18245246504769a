//! The store by which a cancelled endpoint's queue head leaves the ring (EHCI 1.0, 4.8.2; USB 2.0, 8.6): the queue head before it leads past it, and the walk,
//! which may still meet it, finds all queues as they were.
//!
//! The module has no code of its own: each function is a law over the definitions of `law_driver`, `law_world_steps` and `standing_fronts`, and its body is empty.

pub mod laws;
pub mod worked;
