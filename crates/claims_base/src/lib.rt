//! What is said of lists, of registers and of memory alone: the lowest of the definitions that the clauses of the top call cite, through `claims_driver`, `claims_report` and
//! `claims_world`.
//!
//! - specs/Prefix.antt: a list that begins another.
//! - specs/Controller.antt: what is said of the controller's registers and of the memory that it may touch.
//!
//! There is no code, and no proof.
#![tactic(auto)]
