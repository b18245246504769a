//! The schedule of a driver, as text: where its periodic endpoints stand in the frame list, and what they cost (EHCI 1.0, 3.6.2, 4.7 and 4.12;
//! USB 2.0, 5.11.3 and 11.18).
//!
//! `schedule` tells first the classes of frames that have an endpoint, with the microframes of each endpoint there: `S` has its transaction or its
//! start-split, `C` a complete-split. Then come the loads of the first 64 microframes, and below each hub with an endpoint the byte-times of its
//! translator, each as a number, as per cent of the budget and as a bar; microframes behind each other that have none have one line.
//!
//! `put_refusal` tells of an endpoint that found no placement which budgets its first allowed placements break.
#![tactic(auto)]

mod asks;
mod breaches;
mod classes;
mod loads;
mod masks;
mod options;
mod refusals;

use bandwidth::Plan;
use drv_table::Endpoint;
pub use refusals::put_refusal;
use std::alloc::Global;
use usb_base::Memory;

/// The schedule of these endpoints, each placed under its number.
///
/// # Errors
///
/// `Memory` where it finds no room.
pub fn schedule(alloc: Global, endpoints: &[Endpoint], plan: &Plan) -> Result<Vec<u8>, Memory> {
    let mut text = Vec::new(alloc);
    classes::put_classes(&mut text, endpoints, plan)?;
    loads::put_loads(&mut text, plan)?;
    loads::put_translators(&mut text, endpoints, plan)?;
    Ok(text)
}
