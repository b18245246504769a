//! What is said of single events (EHCI 1.0, 3.5.3, 3.6.3, 4.6 to 4.10 and 4.15; USB 2.0, 8.4 to 8.6 and 11.14 to 11.18): definitions that
//! the clauses of the top call cite, through `claims_world_answers`, and nothing else. Why they hold is in the `law_` crates.
//!
//! - specs/Refusals.antt: for what a command is refused; specs/Adding.antt: what an accepted one adds.
//! - specs/Hearing.antt: who hears a packet; specs/Seating.antt: which endpoints there are.
//! - specs/Resting.antt: when a driver may rest; specs/Turns.antt: that it goes on until then.
//! - specs/Telling.antt: why a line of the report tells what it tells; specs/Slots.antt: what isochronous slots tell; specs/Passing.antt:
//!   what is noted before.
//!
//! There is no code, and no proof.
#![tactic(auto)]
