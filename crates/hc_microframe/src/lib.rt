//! Whole microframes of the controller (EHCI 1.0, 4.1 and 4.6 to 4.12), and single events, for callers that keep all state themselves, as
//! emulators do.
//!
//! Between two microframes the controller is eight words, which are plain data. A microframe is made over words that are lent for the call.
//! What it asks of the bus it gets from answers that the caller wrote down beforehand; where they don't suffice, `microframe` changes
//! nothing and tells what is asked next, and the caller calls again with one answer more. So no call calls back, and none keeps anything.
//!
//! `step` makes one event. Its state, `Whole`, is all of a controller between two events, with the copies in hand as words; a transaction
//! that has no answer yet leaves it as it was.
//!
//! `ehci_c` exports these calls to C.
#![tactic(auto)]

mod answers;
mod desk;
mod laws;
mod making;
mod numbers;
mod running;
mod several;
mod state;
mod stepping;
mod whole;
pub mod worked;
pub mod worked_events;
pub mod worked_runs;

pub use answers::{Answer, AskWords, Wanted, ask_words};
pub use desk::Desk;
pub use laws::{
    asks_once, calls_are_run, calls_are_run_over, place_is_kept, registers_are_kept,
    run_is_held_up, words_keep_registers,
};
pub use numbers::{HeardWords, ItdWords, QueueWords, SitdWords};
pub use running::{Ran, microframe};
pub use several::{RunStop, run};
pub use state::{State, interrupts, read, registers_of, reset, state_of, write};
pub use stepping::{Stepped, kind_number, step, write_between};
pub use whole::{FrameWords, HandWords, RingWords, Whole, reset_whole};
