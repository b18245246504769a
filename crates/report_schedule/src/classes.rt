//! The classes of frames.
use app_trace_lines::{put, put_endpoint, put_number};
use bandwidth::{Placement, Plan};
use drv_table::Endpoint;
use usb_base::Memory;

/// The frames in which an endpoint is active: each of so many that leaves this rest.
#[derive(Clone, Copy, PartialEq, Eq)]
struct Class {
    frames: u16,
    first: u16,
}

fn class_of(placement: &Placement) -> Class {
    Class {
        frames: u16::max(placement.period / 8, 1),
        first: placement.phase,
    }
}

/// The placement of the endpoint of this number, if it has one in the plan.
pub(crate) fn placed(endpoints: &[Endpoint], plan: &Plan, number: usize) -> Option<Placement> {
    let endpoint = endpoints.get(number)?;
    let id = u32::try_from(number).ok()?;
    if plan.has(id) {
        endpoint.placement
    } else {
        None
    }
}

/// The letter of a microframe.
fn letter(placement: &Placement, microframe: u8) -> &'static str {
    if placement.smask >> (microframe & 7) & 1 == 1 {
        "S"
    } else if placement.cmask >> (microframe & 7) & 1 == 1 {
        "C"
    } else {
        "."
    }
}

/// Appends the letters of the eight microframes of an active frame.
pub(crate) fn put_letters(text: &mut Vec<u8>, placement: &Placement) -> Result<(), Memory> {
    for microframe in 0..8 {
        put(text, letter(placement, microframe))?;
    }
    Ok(())
}

/// Appends the line of an endpoint.
fn put_placed(
    text: &mut Vec<u8>,
    endpoint: &Endpoint,
    placement: &Placement,
) -> Result<(), Memory> {
    put(text, "  ")?;
    put_letters(text, placement)?;
    put(text, " ")?;
    put_endpoint(text, &endpoint.desc.name)?;
    if let Some(hub) = endpoint.desc.hub {
        put(text, " hub ")?;
        put_number(text, hub.get() as u64)?;
    }
    put(text, "\n")
}

/// Appends the lines of a class: its frames, and its endpoints.
fn put_class(
    text: &mut Vec<u8>,
    endpoints: &[Endpoint],
    plan: &Plan,
    class: Class,
) -> Result<(), Memory> {
    put(text, "every ")?;
    put_number(text, class.frames as u64)?;
    put(text, " frames from frame ")?;
    put_number(text, class.first as u64)?;
    put(text, "\n")?;
    for number in 0..endpoints.len() {
        if let Some(placement) = placed(endpoints, plan, number) {
            if class_of(&placement) == class {
                put_placed(text, &endpoints[number], &placement)?;
            }
        }
    }
    Ok(())
}

/// Whether an endpoint below this number has the class.
fn is_told(endpoints: &[Endpoint], plan: &Plan, below: usize, class: Class) -> bool {
    for number in 0..below {
        if let Some(placement) = placed(endpoints, plan, number) {
            if class_of(&placement) == class {
                return true;
            }
        }
    }
    false
}

/// Appends each class that has an endpoint, by its first one.
pub(crate) fn put_classes(
    text: &mut Vec<u8>,
    endpoints: &[Endpoint],
    plan: &Plan,
) -> Result<(), Memory> {
    for number in 0..endpoints.len() {
        if let Some(placement) = placed(endpoints, plan, number) {
            let class = class_of(&placement);
            if !is_told(endpoints, plan, number, class) {
                put_class(text, endpoints, plan, class)?;
            }
        }
    }
    Ok(())
}
