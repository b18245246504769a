//! The links that isochronous descriptors are given before they are lent (EHCI 1.0, 3.1, 3.3.1, 4.6 and 4.7).
//!
//! The module has no code of its own: each function is a law over the definitions of `law_descriptors`, and its body is empty.

pub mod laws;
pub mod worked;
