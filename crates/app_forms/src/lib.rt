//! What the program does in each of its forms: what it reads, what it writes and how it ends.
//!
//! Each form has its function (`run`, `image`, `check`, `dump`, `load`), over an input that was read whole; `form_of` tells the form of the words.
#![tactic(auto)]

mod checking;
mod dumping;
mod form;
pub mod laws;
mod loading;
mod refusing;
mod running;
pub mod worked;

pub use checking::check;
pub use dumping::dump;
pub use form::{Form, form_of};
pub use loading::load;
pub use running::{image, run};
