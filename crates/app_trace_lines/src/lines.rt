//! The line of an event.
ghost use Rattle.std.specs.Prelude.{◌≡◌, ◌++◌, IfOk, codes};
ghost use Rattle.std.specs.List.{flat_map};
ghost use Rattle.app_trace_lines.specs.Lines.{port_text, part_text, start_text, complete_text, token_text, packet_text, data_text, answer_text, reply_text, acknowledgement_text, heard_text, packets_text, exchange_text, made_text, address_text, at_text, time_text, word_stored_text, stored_text, name_text, reset_text, driver_line, refusal_text, offered_text, began_text, subject_text, controller_text, happening_text, moment_text, unheard_text, end_text, span_text, work_text, passed_text, below_text, entry_line};

use crate::entries::{Entry, Happening, Work};
use crate::pieces::{
    driver_text, fate_text, part_words, pid_text, put, put_endpoint, put_number, put_why, put_word,
    step_text,
};
use bus_packets::{Answer, Exchange, Passed, has_answer, is_acknowledged, is_heard, sends_data};
use drv_jobs::JobRow;
use hc_core::HcStep;
use usb_base::{Ask, DataPart, EpName, Memory, OfferError, Pid, Split};

#[tactic(auto, unfolding(crate::specs::Lines::port_text))]
fn put_port(text: &mut Vec<u8>, hub: u8, port: u8) -> Result<(), Memory>
    ensures { IfOk result (λ _. text.new.items ≡ text.old.items ++ port_text hub port) }
{
    put_number(text, hub as u64)?;
    put(text, ".")?;
    put_number(text, port as u64)?;
    put(text, " ")
}

#[tactic(auto, unfolding(crate::specs::Lines::part_text))]
fn put_part(text: &mut Vec<u8>, part: DataPart, pid: Pid) -> Result<(), Memory>
    ensures { IfOk result (λ _. text.new.items ≡ text.old.items ++ part_text part pid) }
{
    put(text, part_words(part))?;
    put(text, pid_text(pid))
}

#[tactic(auto, unfolding(crate::specs::Lines::start_text))]
fn put_start(text: &mut Vec<u8>, hub: u8, port: u8, part: DataPart, pid: Pid) -> Result<(), Memory>
    ensures { IfOk result (λ _. text.new.items ≡ text.old.items ++ start_text hub port part pid) }
{
    put(text, "start-split ")?;
    put_port(text, hub, port)?;
    put_part(text, part, pid)
}

#[tactic(auto, unfolding(crate::specs::Lines::complete_text))]
fn put_complete(text: &mut Vec<u8>, hub: u8, port: u8, pid: Pid) -> Result<(), Memory>
    ensures { IfOk result (λ _. text.new.items ≡ text.old.items ++ complete_text hub port pid) }
{
    put(text, "complete-split ")?;
    put_port(text, hub, port)?;
    put(text, pid_text(pid))
}

/// Appends the token of an ask, with the SPLIT before it.
#[tactic(auto, unfolding(crate::specs::Lines::token_text))]
fn put_token(text: &mut Vec<u8>, ask: &Ask) -> Result<(), Memory>
    ensures { IfOk result (λ _. text.new.items ≡ text.old.items ++ token_text ask.now.split ask.now.pid) }
{
    match ask.split {
        Split::Plain => put(text, pid_text(ask.pid)),
        Split::Start { hub, port, part } => put_start(text, hub.get(), port, part, ask.pid),
        Split::Complete { hub, port } => put_complete(text, hub.get(), port, ask.pid),
    }
}

#[tactic(auto, unfolding(crate::specs::Lines::packet_text))]
fn put_packet(text: &mut Vec<u8>, pid: Pid, bytes: u16) -> Result<(), Memory>
    ensures { IfOk result (λ _. text.new.items ≡ text.old.items ++ packet_text pid bytes) }
{
    put(text, pid_text(pid))?;
    put(text, " ")?;
    put_number(text, bytes as u64)
}

/// Appends the data that the host sent, if it sent some.
#[tactic(auto, unfolding(crate::specs::Lines::data_text))]
fn put_data(text: &mut Vec<u8>, x: &Exchange) -> Result<(), Memory>
    ensures { IfOk result (λ _. text.new.items ≡ text.old.items ++ data_text x.now) }
{
    if !sends_data(&x.ask) {
        return Ok(());
    }
    put(text, ", ")?;
    put_packet(text, x.ask.toggle, x.sent)?;
    put(text, fate_text(x.fates.data))
}

#[tactic(auto, unfolding(crate::specs::Lines::answer_text))]
fn put_answer(text: &mut Vec<u8>, answer: Answer) -> Result<(), Memory>
    ensures { IfOk result (λ _. text.new.items ≡ text.old.items ++ answer_text answer) }
{
    match answer {
        Answer::Nothing => put(text, "nothing"),
        Answer::Data(pid, bytes) => put_packet(text, pid, bytes),
        Answer::Handshake(pid) => put(text, pid_text(pid)),
    }
}

/// Appends the packet that came in answer, if one did.
#[tactic(auto, unfolding(crate::specs::Lines::reply_text))]
fn put_reply(text: &mut Vec<u8>, x: &Exchange) -> Result<(), Memory>
    ensures { IfOk result (λ _. text.new.items ≡ text.old.items ++ reply_text x.now) }
{
    if !has_answer(x.told.row) {
        return Ok(());
    }
    put(text, ", ")?;
    put_answer(text, x.answer)?;
    put(text, fate_text(x.fates.answer))
}

/// Appends the host's acknowledgement, if it sent one.
#[tactic(auto, unfolding(crate::specs::Lines::acknowledgement_text))]
fn put_acknowledgement(text: &mut Vec<u8>, x: &Exchange) -> Result<(), Memory>
    ensures { IfOk result (λ _. text.new.items ≡ text.old.items ++ acknowledgement_text x.now) }
{
    if !is_acknowledged(x.told.row) {
        return Ok(());
    }
    put(text, ", ack")?;
    put(text, fate_text(x.fates.acknowledgement))
}

#[tactic(auto, unfolding(crate::specs::Lines::heard_text))]
fn put_heard(text: &mut Vec<u8>, x: &Exchange) -> Result<(), Memory>
    ensures { IfOk result (λ _. text.new.items ≡ text.old.items ++ heard_text x.now) }
{
    put(text, "; heard ")?;
    if is_heard(x.told.row) {
        put_answer(text, x.answer)
    } else {
        put(text, "nothing")
    }
}

/// Appends the packets of a transaction, in the order in which they went.
#[tactic(auto, unfolding(crate::specs::Lines::packets_text))]
fn put_packets(text: &mut Vec<u8>, x: &Exchange) -> Result<(), Memory>
    ensures { IfOk result (λ _. text.new.items ≡ text.old.items ++ packets_text x.now) }
{
    put_token(text, &x.ask)?;
    put(text, fate_text(x.fates.token))?;
    put_data(text, x)?;
    put_reply(text, x)?;
    put_acknowledgement(text, x)
}

/// Appends a transaction.
#[tactic(auto, unfolding(crate::specs::Lines::exchange_text))]
fn put_exchange(text: &mut Vec<u8>, x: &Exchange) -> Result<(), Memory>
    ensures { IfOk result (λ _. text.new.items ≡ text.old.items ++ exchange_text x.now) }
{
    put(text, " ")?;
    put_endpoint(text, &x.told.asked.name)?;
    put(text, ": ")?;
    put_packets(text, x)?;
    put_heard(text, x)
}

#[tactic(auto, unfolding(crate::specs::Lines::time_text))]
fn put_time(text: &mut Vec<u8>, price: u64, left: u64) -> Result<(), Memory>
    ensures { IfOk result (λ _. text.new.items ≡ text.old.items ++ time_text price left) }
{
    put(text, "; price ")?;
    put_number(text, price)?;
    put(text, "; left ")?;
    put_number(text, left)
}

/// Appends the transaction of an event, if it made one, with its price and the time left.
#[tactic(auto, unfolding(crate::specs::Lines::made_text))]
fn put_made(
    text: &mut Vec<u8>,
    exchange: &Option<Exchange>,
    price: u64,
    left: u64,
) -> Result<(), Memory>
    ensures { IfOk result (λ _. text.new.items ≡ text.old.items ++ made_text exchange.now price left) }
{
    match exchange {
        Some(x) => {
            put_exchange(text, x)?;
            put_time(text, price, left)
        }
        None => Ok(()),
    }
}

#[tactic(auto, unfolding(crate::specs::Lines::address_text))]
fn put_address(text: &mut Vec<u8>, at: u32) -> Result<(), Memory>
    ensures { IfOk result (λ _. text.new.items ≡ text.old.items ++ address_text at) }
{
    put(text, " ")?;
    put_word(text, at)
}

#[tactic(auto, unfolding(crate::specs::Lines::at_text))]
fn put_at(text: &mut Vec<u8>, at: Option<u32>) -> Result<(), Memory>
    ensures { IfOk result (λ _. text.new.items ≡ text.old.items ++ at_text at) }
{
    match at {
        Some(at) => put_address(text, at),
        None => Ok(()),
    }
}

#[tactic(auto, unfolding(crate::specs::Lines::word_stored_text))]
fn put_word_stored(text: &mut Vec<u8>, at: u32, value: u32) -> Result<(), Memory>
    ensures { IfOk result (λ _. text.new.items ≡ text.old.items ++ word_stored_text at value) }
{
    put_address(text, at)?;
    put(text, " becomes")?;
    put_address(text, value)
}

#[tactic(auto, unfolding(crate::specs::Lines::stored_text))]
fn put_stored(text: &mut Vec<u8>, stored: Option<(u32, u32)>) -> Result<(), Memory>
    ensures { IfOk result (λ _. text.new.items ≡ text.old.items ++ stored_text stored) }
{
    match stored {
        Some((at, value)) => put_word_stored(text, at, value),
        None => Ok(()),
    }
}

/// Appends an event of the driver.
#[tactic(auto, unfolding(crate::specs::Lines::driver_line))]
fn put_driver(text: &mut Vec<u8>, row: &JobRow, stored: Option<(u32, u32)>) -> Result<(), Memory>
    ensures { IfOk result (λ _. text.new.items ≡ text.old.items ++ driver_line row.now stored) }
{
    put(text, "driver ")?;
    put(text, driver_text(row.step()))?;
    put_reset(text, row)?;
    put_stored(text, stored)
}

/// Appends the endpoint that is reset, if one is.
#[tactic(auto, unfolding(crate::specs::Lines::reset_text))]
fn put_reset(text: &mut Vec<u8>, row: &JobRow) -> Result<(), Memory>
    ensures { IfOk result (λ _. text.new.items ≡ text.old.items ++ reset_text row.now) }
{
    match row {
        JobRow::Resets(name) => put_name(text, name),
        _ => Ok(()),
    }
}

/// Appends a space and an endpoint.
#[tactic(auto, unfolding(crate::specs::Lines::name_text))]
fn put_name(text: &mut Vec<u8>, name: &EpName) -> Result<(), Memory>
    ensures { IfOk result (λ _. text.new.items ≡ text.old.items ++ name_text name.now) }
{
    put(text, " ")?;
    put_endpoint(text, name)
}

#[tactic(auto, unfolding(crate::specs::Lines::offered_text))]
fn put_offered(text: &mut Vec<u8>, line: u32, refused: Option<OfferError>) -> Result<(), Memory>
    ensures { IfOk result (λ _. text.new.items ≡ text.old.items ++ offered_text line refused) }
{
    put(text, "command of line ")?;
    put_number(text, line as u64)?;
    put_refusal(text, refused)
}

#[tactic(auto, unfolding(crate::specs::Lines::refusal_text))]
fn put_refusal(text: &mut Vec<u8>, refused: Option<OfferError>) -> Result<(), Memory>
    ensures { IfOk result (λ _. text.new.items ≡ text.old.items ++ refusal_text refused) }
{
    match refused {
        Some(why) => {
            put(text, " refused ")?;
            put_why(text, why)
        }
        None => put(text, " accepted"),
    }
}

#[tactic(auto, unfolding(crate::specs::Lines::began_text))]
fn put_began(text: &mut Vec<u8>, allowed: bool) -> Result<(), Memory>
    ensures { IfOk result (λ _. text.new.items ≡ text.old.items ++ began_text allowed) }
{
    if allowed {
        put(text, "controller begin")
    } else {
        put(text, "controller begin held")
    }
}

/// Appends what an event was about.
#[tactic(auto, unfolding(crate::specs::Lines::subject_text))]
fn put_subject(
    text: &mut Vec<u8>,
    at: Option<u32>,
    exchange: &Option<Exchange>,
    price: u64,
    left: u64,
) -> Result<(), Memory>
    ensures { IfOk result (λ _. text.new.items ≡ text.old.items ++ subject_text at exchange.now price left) }
{
    put_at(text, at)?;
    put_made(text, exchange, price, left)
}

/// Appends what an event of the controller was.
#[tactic(auto, unfolding(crate::specs::Lines::controller_text))]
fn put_controller(
    text: &mut Vec<u8>,
    step: HcStep,
    at: Option<u32>,
    exchange: &Option<Exchange>,
    price: u64,
    left: u64,
) -> Result<(), Memory>
    ensures { IfOk result (λ _. text.new.items ≡ text.old.items ++ controller_text step at exchange.now price left) }
{
    put(text, "controller ")?;
    put(text, step_text(step))?;
    put_subject(text, at, exchange, price, left)
}

/// Appends what happened.
#[tactic(auto, unfolding(crate::specs::Lines::happening_text))]
fn put_happening(text: &mut Vec<u8>, happening: &Happening) -> Result<(), Memory>
    ensures { IfOk result (λ _. text.new.items ≡ text.old.items ++ happening_text happening.now) }
{
    match happening {
        Happening::Began(allowed) => put_began(text, *allowed),
        Happening::Controller {
            step,
            at,
            exchange,
            price,
            left,
        } => put_controller(text, *step, *at, exchange, *price, *left),
        Happening::Driver { row, stored } => put_driver(text, row, *stored),
        Happening::Offered(line, refused) => put_offered(text, *line, *refused),
    }
}

#[tactic(auto, unfolding(crate::specs::Lines::moment_text))]
fn put_moment(text: &mut Vec<u8>, microframe: u32, frame_index: u16) -> Result<(), Memory>
    ensures { IfOk result (λ _. text.new.items ≡ text.old.items ++ moment_text microframe frame_index) }
{
    put_number(text, microframe as u64)?;
    put(text, " ")?;
    put_number(text, (frame_index / 8) as u64)?;
    put(text, ".")?;
    put_number(text, (frame_index % 8) as u64)?;
    put(text, " ")
}

#[tactic(auto, unfolding(crate::specs::Lines::unheard_text))]
fn put_unheard(text: &mut Vec<u8>, unheard: u32) -> Result<(), Memory>
    ensures { IfOk result (λ _. text.new.items ≡ text.old.items ++ unheard_text unheard) }
{
    put(text, ", unheard ")?;
    put_number(text, unheard as u64)
}

#[tactic(auto, unfolding(crate::specs::Lines::end_text))]
fn put_end(text: &mut Vec<u8>, end: u64, unheard: u32) -> Result<(), Memory>
    ensures { IfOk result (λ _. text.new.items ≡ text.old.items ++ end_text end unheard) }
{
    put(text, " to before ")?;
    put_number(text, end)?;
    put_unheard(text, unheard)
}

/// Appends the numbers of packets, and how many of them were unheard.
#[tactic(auto, unfolding(crate::specs::Lines::span_text))]
fn put_span(text: &mut Vec<u8>, first: u64, end: u64, unheard: u32) -> Result<(), Memory>
    ensures { IfOk result (λ _. text.new.items ≡ text.old.items ++ span_text first end unheard) }
{
    put(text, " packets from ")?;
    put_number(text, first)?;
    put_end(text, end, unheard)
}

/// Appends the packets of one endpoint below a translator.
#[tactic(auto, unfolding(crate::specs::Lines::work_text))]
fn put_work(text: &mut Vec<u8>, work: &Work) -> Result<(), Memory>
    ensures { IfOk result (λ _. text.new.items ≡ text.old.items ++ work_text work.now) }
{
    put(text, "; below ")?;
    put_endpoint(text, &work.name)?;
    put_span(text, work.first, work.end, work.unheard)
}

fn put_works(text: &mut Vec<u8>, works: &[Work]) -> Result<(), Memory>
    ensures { IfOk result (λ _. text.new.items ≡ text.old.items ++ flat_map work_text works.now) }
{
    for work in works {
        put_work(text, work)?;
    }
    Ok(())
}

/// Appends a transaction below a translator.
#[tactic(auto, unfolding(crate::specs::Lines::passed_text))]
fn put_passed(text: &mut Vec<u8>, passed: &Passed) -> Result<(), Memory>
    ensures { IfOk result (λ _. text.new.items ≡ text.old.items ++ passed_text passed.now) }
{
    put(text, "; below at ")?;
    put_number(text, passed.time)?;
    put_exchange(text, &passed.exchange)
}

fn put_all_passed(text: &mut Vec<u8>, all: &[Passed]) -> Result<(), Memory>
    ensures { IfOk result (λ _. text.new.items ≡ text.old.items ++ flat_map passed_text all.now) }
{
    for passed in all {
        put_passed(text, passed)?;
    }
    Ok(())
}

/// Appends what translators did below.
#[tactic(auto, unfolding(crate::specs::Lines::below_text))]
fn put_below(text: &mut Vec<u8>, works: &[Work], passed: &[Passed]) -> Result<(), Memory>
    ensures { IfOk result (λ _. text.new.items ≡ text.old.items ++ below_text works.now passed.now) }
{
    put_works(text, works)?;
    put_all_passed(text, passed)
}

/// Appends the line of an event or command, with what translators did below: the packets of each endpoint (`works`), and the transactions
/// (`passed`), in their order.
///
/// # Errors
///
/// `Memory` where the line finds no room; then a front part of it may have been appended.
#[tactic(auto, unfolding(crate::specs::Lines::entry_line))]
pub fn put_entry(
    text: &mut Vec<u8>,
    entry: &Entry,
    works: &[Work],
    passed: &[Passed],
) -> Result<(), Memory>
    ensures { IfOk result (λ _. text.new.items ≡ text.old.items ++ entry_line entry.now works.now passed.now) }
{
    put_moment(text, entry.microframe, entry.frame_index)?;
    put_happening(text, &entry.happening)?;
    put_below(text, works, passed)?;
    put(text, "\n")
}
