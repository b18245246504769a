//! The loads of microframes, and the byte-times of translators.
ghost use Rattle.std.specs.Prelude.{◌≡◌, ◌<◌, ◌≤◌, length, slice_index, IfSome};

use crate::classes::placed;
use app_trace_lines::{put, put_number};
use bandwidth::{Plan, Table};
use bandwidth_steps::Steps;
use drv_table::Endpoint;
use std::marker::Brand;
use std::sync::ledger::{Blank, Ledger};
use usb_base::limits::{BYTE_TIMES_OF_MICROFRAME, MICROFRAME_BUDGET};
use usb_base::{EpDesc, Memory};

/// The microframes that are told.
const MICROFRAMES: usize = 64;

/// The bus time that a mark stands for, a fiftieth of what periodic transactions may use of a microframe, in picoseconds (USB 2.0, 5.5.4).
const MARK_TIME: u64 = 2_000_000;

/// The byte-times that a mark stands for, of the 188 of a microframe (USB 2.0, 11.18.1).
const MARK_BYTES: u64 = 4;

/// Appends an amount as per cent of its budget, in whole tenths.
pub(crate) fn put_share(text: &mut Vec<u8>, amount: u64, budget: u64) -> Result<(), Memory>
    requires { 1 ≤ budget }
{
    let tenths = amount.saturating_mul(1000) / budget;
    put_number(text, tenths / 10)?;
    put(text, ".")?;
    put_number(text, tenths % 10)?;
    put(text, "%")
}

/// Appends the line of a microframe: an amount, its share of the budget, and a mark for each begun unit of it, at most fifty.
fn put_amount(
    text: &mut Vec<u8>,
    microframe: usize,
    amount: u64,
    budget: u64,
    unit: u64,
) -> Result<(), Memory>
    requires budget { 1 ≤ budget }
    requires unit { unit ≤ 2_000_000 }
{
    put(text, "  ")?;
    put_number(text, microframe as u64)?;
    put(text, " ")?;
    put_number(text, amount)?;
    put(text, " ")?;
    put_share(text, amount, budget)?;
    put(text, " ")?;
    for mark in 0..50u64 {
        if mark * unit < amount {
            put(text, "#")?;
        }
    }
    put(text, "\n")
}

/// Appends the line of microframes that have none, from the first to before the end.
fn put_none(text: &mut Vec<u8>, first: usize, end: usize) -> Result<(), Memory> {
    put(text, "  ")?;
    put_number(text, first as u64)?;
    let last = end.saturating_sub(1);
    if last > first {
        put(text, " to ")?;
        put_number(text, last as u64)?;
    }
    put(text, " none\n")
}

/// Whether a microframe has none.
fn has_none(amounts: &[u64], microframe: usize) -> bool {
    match amounts.get(microframe) {
        Some(amount) => *amount == 0,
        None => false,
    }
}

/// The first microframe behind this one that has some, or the number of them all.
fn end_of_none(amounts: &[u64], first: usize) -> usize {
    for microframe in first..amounts.len() {
        if !has_none(amounts, microframe) {
            return microframe;
        }
    }
    amounts.len()
}

/// Appends a line for each microframe that has some, and one for those behind each other that have none.
fn put_amounts(text: &mut Vec<u8>, amounts: &[u64], budget: u64, unit: u64) -> Result<(), Memory>
    requires budget { 1 ≤ budget }
    requires unit { unit ≤ 2_000_000 }
{
    for microframe in 0..amounts.len() {
        if !has_none(amounts, microframe) {
            put_amount(text, microframe, amounts[microframe], budget, unit)?;
        } else if microframe == 0 || !has_none(amounts, microframe - 1) {
            put_none(text, microframe, end_of_none(amounts, microframe))?;
        }
    }
    Ok(())
}

/// Appends the bus time of the periodic transactions of each microframe.
pub(crate) fn put_loads(text: &mut Vec<u8>, plan: &Plan) -> Result<(), Memory> {
    let mut times = [0u64; MICROFRAMES];
    for microframe in 0..MICROFRAMES {
        times[microframe] = plan.load(microframe as u16).0;
    }
    // (`MICROFRAME_BUDGET`)
    put(text, "bus time of microframes, in ps of 100000000\n")?;
    put_amounts(text, &times, MICROFRAME_BUDGET, MARK_TIME)
}

/// Reads a cell with a count of its own.
pub(crate) fn cell<L: Ledger>(table: &Table, at: u32, blank: Blank) -> u64
    requires name { blank.name ≡ L.name }
    requires parts { blank.parts ≡ L.parts }
    requires some { 0 < L.parts }
    requires cell { at < length table.now }
    ensures { result ≡ slice_index table.now at }
{
    let mut steps = Steps::<L>::begin(blank);
    table.get(at, &mut steps)
}

/// The port of a translator is told in a number of its own below this one.
const PORTS: u32 = 16;

/// Appends the byte-times of a translator in each microframe. Its number is 16 times the address of its hub, and the port that it serves
/// alone, or 0 where it serves all.
fn put_translator(text: &mut Vec<u8>, translator: u32, sums: &Table) -> Result<(), Memory>
    requires { length sums.now ≡ 8192 }
{
    let mut amounts = [0u64; MICROFRAMES];
    for microframe in 0..MICROFRAMES {
        amounts[microframe] = cell::<Brand>(sums, microframe as u32, Blank::new(1));
    }
    put(text, "byte-times of hub ")?;
    put_number(text, (translator / PORTS) as u64)?;
    if translator % PORTS > 0 {
        put(text, " port ")?;
        put_number(text, (translator % PORTS) as u64)?;
    }
    // (`BYTE_TIMES_OF_MICROFRAME`)
    put(text, " in microframes, of 188\n")?;
    put_amounts(text, &amounts, BYTE_TIMES_OF_MICROFRAME as u64, MARK_BYTES)
}

/// The translator that serves an endpoint, if one does.
fn translator_for(desc: &EpDesc) -> Option<u32> {
    let hub = desc.hub?;
    Some(PORTS * hub.get() as u32 + (desc.tt as u32) % PORTS)
}

/// The translator that serves the endpoint of this number, if it is placed below one.
fn translator_of(endpoints: &[Endpoint], plan: &Plan, number: usize) -> Option<u32> {
    placed(endpoints, plan, number)?;
    translator_for(&endpoints.get(number)?.desc)
}

/// The number of an endpoint that is placed below the translator of one so described.
pub(crate) fn neighbour_of(endpoints: &[Endpoint], plan: &Plan, desc: &EpDesc) -> Option<u32> {
    let translator = translator_for(desc)?;
    for number in 0..endpoints.len() {
        if translator_of(endpoints, plan, number) == Some(translator) {
            return u32::try_from(number).ok();
        }
    }
    None
}

/// Whether an endpoint below this number is placed below the translator.
fn is_told(endpoints: &[Endpoint], plan: &Plan, below: usize, translator: u32) -> bool {
    for number in 0..below {
        if translator_of(endpoints, plan, number) == Some(translator) {
            return true;
        }
    }
    false
}

/// The byte-times of the translator that serves the endpoint of this number.
fn sums_of(plan: &Plan, number: usize) -> Option<&Table>
    ensures { IfSome result (λ t. length t.now ≡ 8192) }
{
    plan.byte_sums(u32::try_from(number).ok()?)
}

/// Appends the byte-times of each translator that has a placed endpoint, by its first one.
pub(crate) fn put_translators(
    text: &mut Vec<u8>,
    endpoints: &[Endpoint],
    plan: &Plan,
) -> Result<(), Memory> {
    for number in 0..endpoints.len() {
        if let Some(translator) = translator_of(endpoints, plan, number) {
            if !is_told(endpoints, plan, number, translator) {
                if let Some(sums) = sums_of(plan, number) {
                    put_translator(text, translator, sums)?;
                }
            }
        }
    }
    Ok(())
}
