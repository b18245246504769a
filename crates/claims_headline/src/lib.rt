//! What all of the theorem comes to in one sentence, part by part (EHCI 1.0, 4.4 to 4.12; USB 2.0, 5.5 to 5.8, 8.5, 8.6 and 11.14 to
//! 11.18): the clause `headline` of the top call. Its parts are those of `claims_world` and `bus_world`, each for the endpoints that it is
//! proved of.
//!
//! - specs/Headline.antt: the sentence.
//! - specs/Pipes.antt: the clause `pipes`.
//!
//! There is no code: each function is a worked row, and its body is empty.
#![tactic(auto)]

pub mod worked;
