//! Lemmas on booleans, numbers, options and lists that the laws of several crates need.
//!
//! There is no code, and no law of its own.
#![tactic(auto)]
