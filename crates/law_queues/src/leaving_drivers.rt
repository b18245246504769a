//! What a driver of bulk and control endpoints keeps while endpoints are cancelled, unlinked, rung for, cleared and given back (EHCI 1.0, 4.8.2): what is to be given back
//! belongs to endpoints that a walk may still meet, what was told of an endpoint that was given back stays, and what each step leaves as it was.
//!
//! The module has no code of its own: each function is a law over the definitions of `drv_table`, and its body is empty.

pub mod before;
pub mod laws;
pub mod told;
pub mod worked;
