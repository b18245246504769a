//! A control request is published behind the others of its endpoint while the walk goes on (EHCI 1.0, 3.5, 4.10 and 4.10.2; USB 2.0, 8.5.3). The status of
//! the last one leads to the queue's tail, a qTD that isn't active. The further qTDs of the new request and a new tail are lent, then the words of its
//! SETUP are stored into the old tail, the token last. Each of these steps leaves the windows of all requests as they were, and by the last store the new
//! one is behind the others.
//!
//! The module has no code of its own: each function is a law over the definitions of `ring_requests`, and its body is empty.

pub mod laws;
pub mod worked;
