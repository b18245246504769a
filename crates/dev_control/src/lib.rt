//! The stages of a control transfer as a device meets them: SETUP, data and status (USB 2.0, 8.5.3 and 9.3).
//!
//! `ControlStages` is the state of a control endpoint. Its owner tells it the reply to the request under way, if the device has
//! one: a scripted device takes it from its script, a hub from its table of requests. `ControlStages::answer` is what others call;
//! `StageRow` tells what an answer does. The rules stand in `specs/Stages.antt` as tables by stage and token; the endpoints of
//! the other transfer types, and whole devices, are in `endpoint_script`.
#![tactic(auto)]

mod control;
mod rows;
pub mod worked;

pub use control::{ControlStages, Request, data_pid, sequence, token};
pub use rows::{Sequence, Stage, StageRow, StageToken};
