//! A host and a device with a transaction translator between them, whatever they say to each other (USB 2.0, 8.6, 11.17 and 11.18).
//!
//! A plain transaction is two halves, the device's and the host's. `specs/Lift.antt` has what each event is to them with a translator
//! between, and an instance proves of each half that it keeps how host and device stand. The instances are pipes (`pipes`), control
//! requests on small machines (`requests`), and the host and device of `law_request` (`windows`); `worked` has runs, event by event.
//! What the translators of a hub (crates `tt_bulk`, `tt_pipeline`, `multi_tt`) have of each key is such a slot, and each call on them one
//! of these events or none (`slots`).
//!
//! The crate has no code of its own: each function is a law over the definitions of `specs/`, and its body is empty.
#![tactic(auto)]

pub mod pipes;
pub mod requests;
pub mod slots;
pub mod windows;
pub mod worked;
pub mod worked_slots;
