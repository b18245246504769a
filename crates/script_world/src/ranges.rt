//! The ranges of what lines say, beyond those of their numbers alone.
ghost use Rattle.std.specs.Prelude.{◌≡◌, ℕ, ◌<◌, ◌==◌, not, length, Option};
ghost use Rattle.std.specs.List.{list_any};
ghost use Rattle.script_forms.specs.declared.statements.Answer.{Answer as Answered};
ghost use Rattle.script_world.specs.Ranges.{within, is_size, is_period, is_rate, is_paced, is_placed, suits, is_endpoint, ep_ranged};
ghost use Rattle.script_world.specs.Ranges.{is_stream, is_iso, can_answer, kinds_of, some_answer, reply_ranged, by_ranged, out_len, control_ranged};
ghost use Rattle.script_world.specs.Ranges.{is_slots, iso_ranged, stuff_ranged, in_range};

use crate::draft::Draft;
use crate::endpoints::same_way;
use script_forms::{Answer, ControlLine, EpLine, IsoLine, Name, Statement};
use usb_base::limits::MOST_MEMORY;
use usb_base::{EpKind, Speed, Way};

/// Whether a number is from `low` to `high`.
pub fn within(low: u32, high: u32, n: u32) -> bool
    ensures { result ≡ within low high n }
{
    low <= n && n <= high
}

/// Whether a transfer type has this maximum packet size at a speed.
fn is_size(kind: EpKind, speed: Speed, max: u32) -> bool
    ensures { result ≡ is_size kind speed max }
{
    match (kind, speed) {
        (EpKind::Control, Speed::High) => max == 64,
        (EpKind::Control, Speed::Full) => max == 8 || max == 16 || max == 32 || max == 64,
        (EpKind::Control, Speed::Low) => max == 8,
        (EpKind::Bulk, Speed::High) => max == 512,
        (EpKind::Bulk, Speed::Full) => max == 8 || max == 16 || max == 32 || max == 64,
        (EpKind::Bulk, Speed::Low) => false,
        (EpKind::Interrupt, Speed::High) => within(1, 1_024, max),
        (EpKind::Interrupt, Speed::Full) => within(1, 64, max),
        (EpKind::Interrupt, Speed::Low) => within(1, 8, max),
        (EpKind::Iso, Speed::High) => within(1, 1_024, max),
        (EpKind::Iso, Speed::Full) => within(1, 1_023, max),
        (EpKind::Iso, Speed::Low) => false,
    }
}

/// Whether a period is a power of two from 1 to 8,192.
fn is_period(period: u32) -> bool
    ensures { result ≡ is_period period }
{
    period == 1
        || period == 2
        || period == 4
        || period == 8
        || period == 16
        || period == 32
        || period == 64
        || period == 128
        || period == 256
        || period == 512
        || period == 1_024
        || period == 2_048
        || period == 4_096
        || period == 8_192
}

/// Whether a period and the transactions in one suit a speed.
fn is_rate(speed: Speed, period: u32, multi: u32) -> bool
    ensures { result ≡ is_rate speed period multi }
{
    match speed {
        Speed::High => is_period(period) && within(1, 3, multi),
        Speed::Full => is_period(period) && 8 <= period && multi == 1,
        Speed::Low => is_period(period) && 8 <= period && multi == 1,
    }
}

/// Whether the period and the transactions in one suit, where the transfer type has them.
fn is_paced(kind: EpKind, speed: Speed, period: u32, multi: u32) -> bool
    ensures { result ≡ is_paced kind speed period multi }
{
    match kind {
        EpKind::Control => true,
        EpKind::Bulk => true,
        EpKind::Interrupt => is_rate(speed, period, multi),
        EpKind::Iso => is_rate(speed, period, multi),
    }
}

/// Whether a transfer type has this number and way.
fn is_placed(kind: EpKind, name: &Name) -> bool
    ensures { result ≡ is_placed kind name.now }
{
    match kind {
        EpKind::Control => name.num == 0 && same_way(name.way, Way::Ctl),
        _ => within(1, 15, name.num) && !same_way(name.way, Way::Ctl),
    }
}

/// Whether an endpoint may be that of a device of this speed.
fn suits(line: &EpLine, speed: Speed) -> bool
    ensures { result ≡ suits line.now speed }
{
    is_size(line.kind, speed, line.max) && is_paced(line.kind, speed, line.period, line.multi)
}

/// Whether an endpoint's numbers are in the ranges of any speed.
pub fn is_endpoint(line: &EpLine) -> bool
    ensures { result ≡ is_endpoint line.now }
{
    line.name.num <= 15 && within(1, 1_024, line.max) && line.period <= 8_192 && line.multi <= 3
}

/// Whether the stream of a transfer type ends by a STALL.
fn is_stream(kind: EpKind) -> bool
    ensures { result ≡ is_stream kind }
{
    match kind {
        EpKind::Bulk => true,
        EpKind::Interrupt => true,
        _ => false,
    }
}

/// Whether a transfer type is isochronous.
fn is_iso(kind: EpKind) -> bool
    ensures { result ≡ is_iso kind }
{
    match kind {
        EpKind::Iso => true,
        _ => false,
    }
}

/// Whether an endpoint of this way, kind and packet size can answer so.
fn can_answer(way: Way, answer: &Answer, kind: EpKind, max: u32) -> bool
    ensures { result ≡ can_answer way answer.now kind max }
{
    match answer {
        Answer::Data(bytes) => {
            same_way(way, Way::In) && bytes.as_slice().len() as u64 <= max as u64
        }
        Answer::Fill { len, seed: _ } => same_way(way, Way::In) && *len <= 65_536,
        Answer::Nak(_) => !is_iso(kind),
        Answer::Nyet => same_way(way, Way::Out) && is_stream(kind),
        Answer::Stall => is_stream(kind),
        Answer::Request { setup: _, bytes: _ } => same_way(way, Way::Ctl),
        Answer::Epoch => is_stream(kind),
    }
}

/// Whether some kind of endpoint of this way can answer so.
fn some_kind_answers(way: Way, answer: &Answer) -> bool
    ensures { result ≡ list_any (λ kind. can_answer way answer.now kind 1024) (kinds_of way) }
{
    match way {
        Way::Ctl => can_answer(way, answer, EpKind::Control, 1_024),
        _ => {
            can_answer(way, answer, EpKind::Bulk, 1_024)
                || can_answer(way, answer, EpKind::Interrupt, 1_024)
                || can_answer(way, answer, EpKind::Iso, 1_024)
        }
    }
}

/// Whether some endpoint of this way could answer so.
fn some_answer(way: Way, answer: &Answer) -> bool
    ensures { result ≡ some_answer way answer.now }
{
    match answer {
        Answer::Epoch => true,
        _ => some_kind_answers(way, answer),
    }
}

/// How many bytes of data the host sends after these setup bytes.
fn out_len(setup: &[u8; 8]) -> usize
    ensures { result ≡ out_len setup.now }
{
    if setup[0] < 128 {
        return setup[6] as usize + 256 * setup[7] as usize;
    }
    0
}

/// Whether a request has as many bytes of data as its setup bytes say.
fn control_ranged(line: &ControlLine) -> bool
    ensures { result ≡ control_ranged line.now }
{
    let wanted = out_len(&line.setup);
    match &line.bytes {
        Some(bytes) => {
            let len = bytes.as_slice().len();
            0 < len && len == wanted
        }
        None => wanted == 0,
    }
}

/// Whether a line's numbers are in the ranges of any isochronous endpoint.
pub fn is_slots(line: &IsoLine) -> bool
    ensures { result ≡ is_slots line.now }
{
    within(1, 8, line.count) && line.len <= 3_072 && line.seed <= 255
}

impl Draft {
    /// Whether an endpoint may be declared so.
    fn ep_ranged(&self, line: &EpLine) -> bool
        ensures { result ≡ ep_ranged self.now line.now }
    {
        if !(is_endpoint(line) && is_placed(line.kind, &line.name)) {
            return false;
        }
        match self.speed_of(line.name.addr) {
            Some(speed) => suits(line, speed),
            None => {
                suits(line, Speed::High) || suits(line, Speed::Full) || suits(line, Speed::Low)
            }
        }
    }

    /// Whether an endpoint can answer so.
    fn reply_ranged(&self, name: &Name, answer: &Answer) -> bool
        ensures { result ≡ reply_ranged self.now name.now answer.now }
    {
        if self.hub_ep(name).is_some() {
            return false;
        }
        match self.device_ep(name) {
            Some(desc) => can_answer(name.way, answer, desc.kind, desc.max as u32),
            None => some_answer(name.way, answer),
        }
    }

    /// Whether the bytes of a qTD are a multiple of the endpoint's packets, where it is declared.
    fn by_ranged(&self, name: &Name, by: Option<u32>) -> bool
        ensures { result ≡ by_ranged self.now name.now by }
    {
        let Some(by) = by else {
            return true;
        };
        match self.known(name) {
            Some(desc) => 0 < desc.max && by % desc.max as u32 == 0,
            None => true,
        }
    }

    /// Whether isochronous slots may have so many bytes.
    fn iso_ranged(&self, line: &IsoLine) -> bool
        ensures { result ≡ iso_ranged self.now line.now }
    {
        if !is_slots(line) {
            return false;
        }
        match self.known(&line.name) {
            Some(desc) => line.len <= desc.max as u32 * desc.multi as u32,
            None => true,
        }
    }

    /// Whether stuffed bits count for an endpoint, which is so below a hub alone.
    fn stuff_ranged(&self, name: &Name) -> bool
        ensures { result ≡ stuff_ranged self.now name.now }
    {
        if self.hub_ep(name).is_some() {
            return false;
        }
        match self.device_ep(name) {
            Some(desc) => desc.hub.is_some(),
            None => true,
        }
    }

    /// Whether what a line says is in range.
    pub(crate) fn in_range(&self, statement: &Statement) -> bool
        ensures { result ≡ in_range self.now statement.now }
    {
        match statement {
            Statement::Mem(words) => within(2_048, MOST_MEMORY, *words) && *words % 1_024 == 0,
            Statement::Hub(addr, ports, _) => within(1, 127, *addr) && within(1, 15, *ports),
            Statement::DevHigh(addr) => within(1, 127, *addr),
            Statement::DevBelow(below) => within(1, 127, below.addr),
            Statement::Ep(line) => self.ep_ranged(line),
            Statement::Reply(name, answer) => self.reply_ranged(name, answer),
            Statement::Stuff(name, p) => *p <= 6 && self.stuff_ranged(name),
            Statement::Hold(first, last) => *first <= *last,
            Statement::Get(line) => self.by_ranged(&line.name, line.by),
            Statement::Put(line) => self.by_ranged(&line.name, line.by),
            Statement::Control(line) => control_ranged(line),
            Statement::Iso(line) => self.iso_ranged(line),
            _ => true,
        }
    }
}
