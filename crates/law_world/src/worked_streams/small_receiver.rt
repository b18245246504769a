//! Small scripts of bulk endpoints (EHCI 1.0, 4.8.1, 4.8.2 and 4.10; USB 2.0, 8.6), and what their drivers have to do at their moments.
//!
//! The module has no code of its own: each function is a row that the check computes, and its body is empty.

pub mod worked;
