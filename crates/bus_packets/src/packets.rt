//! The packets of a transaction.
ghost use Rattle.std.specs.Prelude.{◌≡◌, ◌≤◌, ◌++◌, IfOk, length};
ghost use Rattle.usb_base.specs.declared.packets.Pid.TheVariants as pids;
ghost use Rattle.bus_capture.specs.Packets.{token_bytes, handshake_bytes};
ghost use Rattle.bus_packets.specs.Packets.{fated, is_low, carries_part, begins, ends, kind_bits, start_of, complete_of, split_of, split_record, token_record, data_record, answer_in, answer_record, acknowledgement_record, exchange_record, frame_record};

use crate::exchanges::{Answer, Exchange};
use crate::heard::{has_answer, is_acknowledged, sends_data};
use crate::records::{put_data_record, put_record, turned};
use crate::times::{acknowledgement_time, answer_time, bus_speed, data_time, token_time};
use bus_capture::{SplitPacket, handshake_bytes, split_bytes, token_bytes};
use usb_base::{Ask, DataPart, EpKind, Fate, Memory, Pid, Speed, Split};

fn is_low(speed: Speed) -> bool
    ensures { result ≡ is_low speed }
{
    match speed {
        Speed::Low => true,
        Speed::Full | Speed::High => false,
    }
}

/// Whether a start-split tells which part of its data it carries.
fn carries_part(kind: EpKind, pid: Pid) -> bool
    ensures { result ≡ carries_part kind pid }
{
    match (kind, pid) {
        (EpKind::Iso, Pid::Out) => true,
        _ => false,
    }
}

fn begins(part: DataPart) -> bool
    ensures { result ≡ begins part }
{
    match part {
        DataPart::All | DataPart::Begin => true,
        DataPart::Middle | DataPart::End => false,
    }
}

fn ends(part: DataPart) -> bool
    ensures { result ≡ ends part }
{
    match part {
        DataPart::All | DataPart::End => true,
        DataPart::Begin | DataPart::Middle => false,
    }
}

fn kind_bits(kind: EpKind) -> u8
    ensures { result ≡ kind_bits kind }
{
    match kind {
        EpKind::Control => 0,
        EpKind::Iso => 1,
        EpKind::Bulk => 2,
        EpKind::Interrupt => 3,
    }
}

fn start_of(ask: &Ask, hub: u8, port: u8, part: DataPart) -> SplitPacket
    ensures { result ≡ start_of ask.now hub port part }
{
    let carries = carries_part(ask.kind, ask.pid);
    SplitPacket {
        hub,
        complete: false,
        port,
        speed: if carries {
            begins(part)
        } else {
            is_low(ask.speed)
        },
        end: carries && ends(part),
        kind: kind_bits(ask.kind),
    }
}

fn complete_of(ask: &Ask, hub: u8, port: u8) -> SplitPacket
    ensures { result ≡ complete_of ask.now hub port }
{
    SplitPacket {
        hub,
        complete: true,
        port,
        speed: is_low(ask.speed),
        end: false,
        kind: kind_bits(ask.kind),
    }
}

/// The SPLIT before the token, if there is one.
fn split_of(ask: &Ask) -> Option<SplitPacket>
    ensures { result ≡ split_of ask.now }
{
    match ask.split {
        Split::Plain => None,
        Split::Start { hub, port, part } => Some(start_of(ask, hub.get(), port, part)),
        Split::Complete { hub, port } => Some(complete_of(ask, hub.get(), port)),
    }
}

/// Appends the SPLIT, unless it is lost with its token.
#[tactic(auto, unfolding(crate::specs::Packets::split_record))]
fn put_split(
    to: &mut Vec<u8>,
    speed: Speed,
    ps: u64,
    fate: Fate,
    split: Option<SplitPacket>,
) -> Result<(), Memory>
    ensures { IfOk result (λ _. to.new.items ≡ to.old.items ++ split_record speed ps fate split) }
{
    match (fate, split) {
        (_, None) | (Fate::Lost, Some(_)) => Ok(()),
        (Fate::Good | Fate::Damaged, Some(x)) => put_record(to, speed, ps, &split_bytes(&x)),
    }
}

/// Appends a packet of three bytes as it went.
#[tactic(auto, unfolding(crate::specs::Packets::fated, crate::specs::Packets::turned_last))]
fn put_three(
    to: &mut Vec<u8>,
    speed: Speed,
    ps: u64,
    fate: Fate,
    bytes: [u8; 3],
) -> Result<(), Memory>
    ensures { IfOk result (λ _. to.new.items ≡ to.old.items ++ fated speed ps fate bytes) }
{
    match fate {
        Fate::Lost => Ok(()),
        Fate::Good => put_record(to, speed, ps, &bytes),
        Fate::Damaged => put_record(to, speed, ps, &[bytes[0], bytes[1], turned(bytes[2])]),
    }
}

/// Appends a handshake as it went.
#[tactic(auto, unfolding(crate::specs::Packets::fated, crate::specs::Packets::turned_last))]
fn put_handshake(
    to: &mut Vec<u8>,
    speed: Speed,
    ps: u64,
    fate: Fate,
    pid: Pid,
) -> Result<(), Memory>
    ensures { IfOk result (λ _. to.new.items ≡ to.old.items ++ fated speed ps fate (handshake_bytes pid)) }
{
    let bytes = handshake_bytes(pid);
    match fate {
        Fate::Lost => Ok(()),
        Fate::Good => put_record(to, speed, ps, &bytes),
        Fate::Damaged => put_record(to, speed, ps, &[turned(bytes[0])]),
    }
}

/// Appends the token, with the SPLIT before it.
#[tactic(auto, unfolding(crate::specs::Packets::token_record))]
fn put_token(to: &mut Vec<u8>, ps: u64, x: &Exchange) -> Result<(), Memory>
    ensures { IfOk result (λ _. to.new.items ≡ to.old.items ++ token_record ps x.now) }
{
    let ask = &x.ask;
    let speed = bus_speed(ask);
    put_split(to, speed, ps, x.fates.token, split_of(ask))?;
    put_three(
        to,
        speed,
        token_time(ps, x),
        x.fates.token,
        token_bytes(ask.pid, ask.addr.get(), ask.ep.get()),
    )
}

/// Appends the data that were sent behind the token, if some were.
#[tactic(auto, unfolding(crate::specs::Packets::data_record))]
fn put_sent(to: &mut Vec<u8>, ps: u64, x: &Exchange, sent: &[u8]) -> Result<(), Memory>
    requires { length sent.now ≤ 1024 }
    ensures { IfOk result (λ _. to.new.items ≡ to.old.items ++ data_record ps x.now sent.now) }
{
    if !sends_data(&x.ask) {
        return Ok(());
    }
    put_data_record(
        to,
        bus_speed(&x.ask),
        data_time(ps, x),
        x.fates.data,
        x.ask.toggle,
        sent,
    )
}

#[tactic(auto, unfolding(crate::specs::Packets::answer_in))]
fn put_answer(
    to: &mut Vec<u8>,
    speed: Speed,
    ps: u64,
    fate: Fate,
    answer: Answer,
    got: &[u8],
) -> Result<(), Memory>
    requires { length got.now ≤ 1024 }
    ensures { IfOk result (λ _. to.new.items ≡ to.old.items ++ answer_in speed ps fate answer got.now) }
{
    match answer {
        Answer::Nothing => Ok(()),
        Answer::Data(pid, _) => put_data_record(to, speed, ps, fate, pid, got),
        Answer::Handshake(pid) => put_handshake(to, speed, ps, fate, pid),
    }
}

/// Appends the packet that came in answer, if one did.
#[tactic(auto, unfolding(crate::specs::Packets::answer_record))]
fn put_reply(to: &mut Vec<u8>, ps: u64, x: &Exchange, got: &[u8]) -> Result<(), Memory>
    requires { length got.now ≤ 1024 }
    ensures { IfOk result (λ _. to.new.items ≡ to.old.items ++ answer_record ps x.now got.now) }
{
    if !has_answer(x.told.row) {
        return Ok(());
    }
    put_answer(
        to,
        bus_speed(&x.ask),
        answer_time(ps, x),
        x.fates.answer,
        x.answer,
        got,
    )
}

/// Appends the acknowledgement of the answer, if one was sent.
#[tactic(auto, unfolding(crate::specs::Packets::acknowledgement_record))]
fn put_acknowledgement(to: &mut Vec<u8>, ps: u64, x: &Exchange) -> Result<(), Memory>
    ensures { IfOk result (λ _. to.new.items ≡ to.old.items ++ acknowledgement_record ps x.now) }
{
    if !is_acknowledged(x.told.row) {
        return Ok(());
    }
    put_handshake(
        to,
        bus_speed(&x.ask),
        acknowledgement_time(ps, x),
        x.fates.acknowledgement,
        Pid::Ack,
    )
}

/// Appends the packets of a transaction that began at this time in picoseconds, each in its block. The bytes `sent` went behind the token,
/// and `got` came in answer.
///
/// # Errors
///
/// `Memory` where they find no room; then a front part of them may have been appended.
#[tactic(auto, unfolding(crate::specs::Packets::exchange_record))]
pub fn put_packets(
    to: &mut Vec<u8>,
    ps: u64,
    x: &Exchange,
    sent: &[u8],
    got: &[u8],
) -> Result<(), Memory>
    requires sent { length sent.now ≤ 1024 }
    requires got { length got.now ≤ 1024 }
    ensures { IfOk result (λ _. to.new.items ≡ to.old.items ++ exchange_record ps x.now sent.now got.now) }
{
    put_token(to, ps, x)?;
    put_sent(to, ps, x, sent)?;
    put_reply(to, ps, x, got)?;
    put_acknowledgement(to, ps, x)
}

/// Appends the SOF of a microframe that began at this time, by its FRINDEX, 0 to 16,383.
///
/// # Errors
///
/// `Memory` where it finds no room; then a front part of it may have been appended.
#[tactic(auto, unfolding(crate::specs::Packets::frame_record))]
pub fn put_frame(to: &mut Vec<u8>, ps: u64, index: u16) -> Result<(), Memory>
    ensures { IfOk result (λ _. to.new.items ≡ to.old.items ++ frame_record ps index) }
{
    put_record(
        to,
        Speed::High,
        ps,
        &token_bytes(Pid::Sof, (index / 8 % 128) as u8, (index / 1024) as u8),
    )
}
