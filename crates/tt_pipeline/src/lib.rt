//! The periodic pipeline of a hub's transaction translator (USB 2.0, 11.18): interrupt and isochronous start-splits
//! become classic transactions on the bus below, 188 byte-times in a microframe, and their results wait for the
//! complete-splits of the same frame. Others call `Pipeline::start`, `microframe` and `complete`; the content is the
//! list of entries in order of arrival, and the words of `specs/` say what each call makes of it. Crate `tt_bulk` has
//! the other half of a translator, `hub_keys` what both share; `law_translator` shows that a plan that fits is done.
#![tactic(auto)]

mod entry;
mod out_data;
mod pipeline;
mod rows;
pub mod worked;

pub use entry::{Brought, Entry, Exchange};
pub use out_data::OutData;
pub use pipeline::Pipeline;
pub use rows::{AnswerRow, StartRow};
