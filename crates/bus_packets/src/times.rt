//! When the packets of a transaction go.
ghost use Rattle.std.specs.Prelude.{◌≡◌, ◌≤◌};
ghost use Rattle.bus_wire.specs.WhoHeard.{later};
ghost use Rattle.bus_packets.specs.Times.{span, own_span, speed_of, bus_speed, split_span, token_time, token_span, data_time, data_span, answer_time, answer_bytes, answer_span, acknowledgement_time, acknowledgement_span, end_of};

use crate::exchanges::{Answer, Exchange};
use crate::heard::{has_answer, is_acknowledged, sends_data};
use usb_base::{Ask, Speed, Split};

/// How long a packet takes of so many bytes, in picoseconds, up to one of the other side.
fn span(speed: Speed, bytes: u64) -> u64
    requires { bytes ≤ 65_548 }
    ensures { result ≡ span speed bytes }
{
    match speed {
        Speed::High => (bytes + 6) * 50_000 / 3,
        Speed::Full => (bytes + 2) * 2_000_000 / 3,
        Speed::Low => (bytes + 2) * 16_000_000 / 3,
    }
}

/// The same up to one of the same side.
fn own_span(speed: Speed, bytes: u64) -> u64
    requires { bytes ≤ 65_538 }
    ensures { result ≡ own_span speed bytes }
{
    match speed {
        Speed::High => span(speed, bytes + 10),
        Speed::Full | Speed::Low => span(speed, bytes),
    }
}

fn later(ps: u64, more: u64) -> u64
    ensures { result ≡ later ps more }
{
    ps.saturating_add(more)
}

/// The speed of the bus on which an ask goes.
pub fn bus_speed(ask: &Ask) -> Speed
    ensures { result ≡ bus_speed ask.now }
{
    match ask.split {
        Split::Plain => ask.speed,
        Split::Start { .. } | Split::Complete { .. } => Speed::High,
    }
}

fn split_span(split: &Split, speed: Speed) -> u64
    ensures { result ≡ split_span split.now speed }
{
    match split {
        Split::Plain => 0,
        Split::Start { .. } | Split::Complete { .. } => own_span(speed, 4),
    }
}

/// When the token begins of a transaction that begins at this time.
pub fn token_time(ps: u64, x: &Exchange) -> u64
    ensures { result ≡ token_time ps x.now }
{
    later(ps, split_span(&x.ask.split, bus_speed(&x.ask)))
}

fn token_span(x: &Exchange) -> u64
    ensures { result ≡ token_span x.now }
{
    if sends_data(&x.ask) {
        return own_span(bus_speed(&x.ask), 3);
    }
    span(bus_speed(&x.ask), 3)
}

/// When the data begin that are sent behind it.
pub fn data_time(ps: u64, x: &Exchange) -> u64
    ensures { result ≡ data_time ps x.now }
{
    later(token_time(ps, x), token_span(x))
}

fn data_span(x: &Exchange) -> u64
    ensures { result ≡ data_span x.now }
{
    if sends_data(&x.ask) {
        return span(bus_speed(&x.ask), x.sent as u64 + 3);
    }
    0
}

/// When the answer begins.
pub fn answer_time(ps: u64, x: &Exchange) -> u64
    ensures { result ≡ answer_time ps x.now }
{
    later(data_time(ps, x), data_span(x))
}

fn answer_bytes(answer: Answer) -> u64
    ensures value { result ≡ answer_bytes answer }
    ensures few { result ≤ 65_538 }
{
    match answer {
        Answer::Nothing => 0,
        Answer::Data(_, bytes) => bytes as u64 + 3,
        Answer::Handshake(_) => 1,
    }
}

fn answer_span(x: &Exchange) -> u64
    ensures { result ≡ answer_span x.now }
{
    if has_answer(x.told.row) {
        return span(bus_speed(&x.ask), answer_bytes(x.answer));
    }
    0
}

/// When the acknowledgement of the answer begins.
pub fn acknowledgement_time(ps: u64, x: &Exchange) -> u64
    ensures { result ≡ acknowledgement_time ps x.now }
{
    later(answer_time(ps, x), answer_span(x))
}

fn acknowledgement_span(x: &Exchange) -> u64
    ensures { result ≡ acknowledgement_span x.now }
{
    if is_acknowledged(x.told.row) {
        return span(bus_speed(&x.ask), 1);
    }
    0
}

/// When the next transaction can begin behind one that begins at this time.
pub fn end_of(ps: u64, x: &Exchange) -> u64
    ensures { result ≡ end_of ps x.now }
{
    later(acknowledgement_time(ps, x), acknowledgement_span(x))
}
