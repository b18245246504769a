//! The members of a ring are exactly the queue heads that its walk may reach (EHCI 1.0, 4.8 and 4.8.2): the head, those in the ring, and those that
//! have left since the last answered doorbell was rung. So once the doorbell is answered, queue heads that had left before it are members no more, wherever the
//! walk stands.
//!
//! The module has no code of its own: each function is a law over the definitions of `law_driver` and `walk_members`, and its body is empty.

pub mod laws;
pub mod worked;
