//! What is due at high speed is done in its microframe, along the run of each script (EHCI 1.0, 4.4, 4.6, 4.7 and 4.10; USB 2.0, 5.7.4).
//!
//! - `due`: the walk of the frames comes to the queue head of each interrupt endpoint in its frames; and what is due of it then is done in
//!   that visit.
//! - `repeats`: complete-splits that are made again at once, which happens only after a loss (EHCI 1.0, 4.12.2.4.2; USB 2.0, 8.5, 11.20 and
//!   11.21).
//! - `repeats_worked`: worked rows of a keyboard's complete-split (EHCI 1.0, 4.12.2.4.2).
//! - `sitds`: each transaction of a split isochronous transfer descriptor is made in its microframe (EHCI 1.0, 3.4 and 4.12.3).
//! - `sitds_worked`: worked rows of a speaker's parts and a microphone's splits.
//! - `slots`: each slot of an isochronous transfer descriptor is done in its microframe: what the walk of the frames fetches with an active
//!   slot has its transactions, and is written back (EHCI 1.0, 3.3.2, 4.4, 4.6, 4.7.1 and 4.10.3; USB 2.0, 5.6.4).
//! - `slots_worked`: worked rows of a microphone's slot.
//! - `words`: what the translators of a bus tell of interrupt transactions (USB 2.0, 8.5.4, 11.18, 11.20 and 11.21).
//! - `worked`: worked rows of a keyboard.
//!
//! The module has no code of its own: each function is a law, and its body is empty.

pub mod due;
pub mod repeats;
pub mod repeats_worked;
pub mod sitds;
pub mod sitds_worked;
pub mod slots;
pub mod slots_worked;
pub mod words;
pub mod worked;
