//! What a controller would do with an image of memory, however wild its words are (EHCI 1.0, 4.1 and 4.4 to 4.12).
//!
//! `probe` lets a controller (`hc_core`) go over the words of an image (`image_show`), on a wire on which everything is silent. That each
//! of its events counts at most one refusal, and then stops, is a law of `law_refusals`.
#![tactic(auto)]

mod probing;
mod silence;
mod window;
pub mod worked;

pub use probing::{ProbeError, Probed, probe};
pub use silence::Silence;
