//! What the lines of a report say, along the run of each script (EHCI 1.0, 3.5, 3.6 and 4.6 to 4.11; USB 2.0, 5.5 to 5.8, 8.5 and 8.6):
//! what is told of each queue, that streams and requests are right, and why each line and each refusal stands.
//!
//! - `answers`: Why each line and each refusal stands.
//! - `due_at_begin`: What is due at high speed as its microframe begins is done in it.
//! - `lines`: What is told of a queue is what was moved of it, in order.
//! - `pipes`: Both sides of each pipe at high speed agree, so the streams of the report are right.
//! - `queues`: What queue heads come to.
//! - `quiet`: What is never told of endpoints at high speed.
//! - `requests`: The control requests of asynchronous scripts.
//!
//! The crate has no code of its own: each function is a law, and its body is empty.
#![tactic(auto)]

pub mod answers;
pub mod due_at_begin;
pub mod lines;
pub mod pipes;
pub mod queues;
pub mod quiet;
pub mod requests;
