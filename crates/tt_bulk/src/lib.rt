//! A translator's two buffers for bulk and control transactions below a hub (USB 2.0, 11.17): `Buffers` takes
//! start-splits (`start`), makes each packet's transaction on the bus below (`work`), and answers complete-splits with
//! its result (`complete`); `clear` and `clear_all` free them (USB 2.0, 11.24.2.3 and 11.24.2.9). The table of
//! answers is `specs/Rows.antt`. Crate `hub_keys` has the keys, `tt_pipeline` the other half of a translator.
#![tactic(auto)]

mod answers;
mod buffer;
mod buffers;
mod rows;
mod table;
pub mod worked;

pub use answers::Answer;
pub use buffers::Buffers;
pub use rows::{BufferIndex, CompleteRow, Stage, Stand, StartRow};
