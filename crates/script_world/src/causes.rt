//! Why a line is refused whose words fit a form.
ghost use Rattle.std.specs.Prelude.{◌≡◌, ℕ, ◌<◌, ◌==◌, not, length, Option, is_some, slice_get, ◌-◌};
ghost use Rattle.std.specs.List.{list_any};
ghost use Rattle.std.specs.Option.{option_flatten};
ghost use Rattle.script_world.specs.Draft.{known};
ghost use Rattle.script_world.specs.Rows.{control_name, is_known, is_used, is_attached, same_bus, is_fated, has_name, is_twice};
ghost use Rattle.script_world.specs.Rows.{answer_len, content_len, bytes_len, may_command, may_script, may_begin, has_room, cause_of, is_world};
ghost use Rattle.script_world.specs.Rows.{is_late};

use crate::draft::Draft;
use crate::endpoints::same_way;
use crate::ranges::within;
use script_forms::{Answer, Below, Content, FateLine, FirstWord, Name, Statement, TextWhy};
use script_types::FateText;
use usb_base::{EpName, ListOf, Speed, Way};

/// The endpoint of a request to a device.
pub fn control_name(addr: u32) -> Name
    ensures { result ≡ control_name addr }
{
    Name {
        addr,
        num: 0,
        way: Way::Ctl,
    }
}

/// Whether a fate is of this packet.
fn is_fated(line: &FateLine, fate: &FateText) -> bool
    ensures { result ≡ is_fated line.now fate.now }
{
    fate.k == line.k
        && fate.down == line.down
        && fate.name.addr.get() as u32 == line.name.addr
        && fate.name.num.get() as u32 == line.name.num
        && same_way(fate.name.way, line.name.way)
}

/// Whether an endpoint has this name.
fn has_name(name: &Name, ep: &EpName) -> bool
    ensures { result ≡ has_name name.now ep.now }
{
    ep.addr.get() as u32 == name.addr
        && ep.num.get() as u32 == name.num
        && same_way(ep.way, name.way)
}

/// Whether a device is attached to a port, counted from 1.
fn has_device(ports: &[Option<Speed>], port: u32) -> bool
    ensures { result ≡ is_some (option_flatten (slice_get ports.now (port - 1))) }
{
    let at = port.saturating_sub(1) as usize;
    match ports.get(at) {
        Some(Some(_)) => true,
        _ => false,
    }
}

/// How many bytes an answer scripts.
pub fn answer_len(answer: &Answer) -> u64
    ensures { result ≡ answer_len answer.now }
{
    match answer {
        Answer::Data(bytes) => bytes.as_slice().len() as u64,
        Answer::Fill { len, seed: _ } => *len as u64,
        Answer::Request { setup: _, bytes } => bytes.as_slice().len() as u64,
        _ => 0,
    }
}

/// How many bytes these are.
pub fn content_len(content: &Content) -> u64
    ensures { result ≡ content_len content.now }
{
    match content {
        Content::Given(bytes) => bytes.as_slice().len() as u64,
        Content::Fill { len, seed: _ } => *len as u64,
    }
}

/// How many bytes these are, none where there are none.
pub fn bytes_len(bytes: &Option<ListOf<u8>>) -> u64
    ensures { result ≡ bytes_len bytes.now }
{
    match bytes {
        Some(bytes) => bytes.as_slice().len() as u64,
        None => 0,
    }
}

/// Whether a line tells of the world, and not of its memory.
fn is_world(first: FirstWord) -> bool
    ensures { result ≡ is_world first }
{
    match first {
        FirstWord::Hub => true,
        FirstWord::Dev => true,
        FirstWord::Ep => true,
        FirstWord::Reply => true,
        FirstWord::Fate => true,
        FirstWord::Hold => true,
        FirstWord::Stuff => true,
        FirstWord::Epoch => true,
        _ => false,
    }
}

impl Draft {
    /// Whether a line with this first word comes too late: the world after an action, the memory after the world.
    pub fn is_late(&self, first: FirstWord) -> bool
        ensures { result ≡ is_late self.now first }
    {
        match first {
            FirstWord::Mem => self.declaring || self.acting,
            _ => is_world(first) && self.acting,
        }
    }

    /// Whether an endpoint is declared.
    fn is_ep(&self, name: &Name) -> bool
        ensures { result ≡ is_some (known self.now name.now) }
    {
        self.known(name).is_some()
    }

    /// Whether the hub of a device is declared and has its port.
    #[tactic(auto, using(crate::proofs::Places::find_at, crate::proofs::Places::find_nowhere))]
    pub(crate) fn is_port(&self, below: &Below) -> bool
        ensures { result ≡ is_known self.now (Statement.DevBelow below.now) }
    {
        let Some(place) = self.hub_place(below.hub) else {
            return false;
        };
        within(1, self.hubs[place].ports as u32, below.port)
    }

    /// Whether what a line names is declared.
    fn is_known(&self, statement: &Statement) -> bool
        ensures { result ≡ is_known self.now statement.now }
    {
        match statement {
            Statement::DevBelow(below) => self.is_port(below),
            Statement::Ep(line) => self.speed_of(line.name.addr).is_some(),
            Statement::Reply(name, _) => self.is_ep(name),
            Statement::Fate(line) => self.is_ep(&line.name),
            Statement::Stuff(name, _) => self.is_ep(name),
            Statement::Open(name) => self.is_ep(name),
            Statement::Cancel(name) => self.is_ep(name),
            Statement::Clear(name) => self.is_ep(name),
            Statement::Get(line) => self.is_ep(&line.name),
            Statement::Put(line) => self.is_ep(&line.name),
            Statement::Control(line) => self.is_ep(&control_name(line.addr)),
            Statement::Iso(line) => self.is_ep(&line.name),
            _ => true,
        }
    }

    /// Whether a hub or device has this address.
    #[tactic(auto, using(crate::proofs::Places::find_some, crate::proofs::Places::find_nowhere))]
    fn is_used(&self, addr: u32) -> bool
        ensures { result ≡ is_used self.now addr }
    {
        self.hub_place(addr).is_some() || self.device_place(addr).is_some()
    }

    /// Whether a device is attached to a port.
    #[tactic(auto, using(crate::proofs::Places::find_at, crate::proofs::Places::find_nowhere))]
    fn is_attached(&self, hub: u32, port: u32) -> bool
        ensures { result ≡ is_attached self.now hub port }
    {
        let Some(place) = self.hub_place(hub) else {
            return false;
        };
        has_device(self.hubs[place].attached.as_slice(), port)
    }

    /// Whether a line says again what was said.
    fn is_twice(&self, statement: &Statement) -> bool
        ensures { result ≡ is_twice self.now statement.now }
    {
        match statement {
            Statement::Mem(_) => self.words.is_some(),
            Statement::Hub(addr, _, _) => self.is_used(*addr),
            Statement::DevHigh(addr) => self.is_used(*addr),
            Statement::DevBelow(below) => {
                self.is_used(below.addr) || self.is_attached(below.hub, below.port)
            }
            Statement::Ep(line) => self.device_ep(&line.name).is_some(),
            Statement::Fate(line) => self.was_fated(line),
            Statement::Stuff(name, _) => self.was_stuffed(name),
            _ => false,
        }
    }

    /// Whether a packet has its fate.
    fn was_fated(&self, line: &FateLine) -> bool
        ensures { result ≡ is_twice self.now (Statement.Fate line.now) }
    {
        self.fates.iter().any(|fate| is_fated(line, fate))
    }

    /// Whether an endpoint has its number of stuffed bits.
    fn was_stuffed(&self, name: &Name) -> bool
        ensures { result ≡ list_any (has_name name.now) self.now.stuffed }
    {
        self.stuffed.iter().any(|ep| has_name(name, ep))
    }

    /// Whether there is room for one more command.
    fn may_command(&self) -> bool
        ensures { result ≡ may_command self.now }
    {
        self.commands < 4_096
    }

    /// Whether there is room for so many more scripted bytes.
    fn may_script(&self, len: u64) -> bool
        ensures { result ≡ may_script self.now len }
    {
        if len > 4_194_304 {
            return false;
        }
        self.scripted as u64 + len <= 4_194_304
    }

    /// Whether an endpoint may have one more epoch, where the answer begins one.
    fn may_begin(&self, name: &Name, answer: &Answer) -> bool
        ensures { result ≡ may_begin self.now name.now answer.now }
    {
        match answer {
            Answer::Epoch => match self.epochs_after(name) {
                Some(epochs) => epochs < 16,
                None => true,
            },
            _ => true,
        }
    }

    /// Whether the limits of a whole script leave room for a line.
    fn has_room(&self, statement: &Statement) -> bool
        ensures { result ≡ has_room self.now statement.now }
    {
        match statement {
            Statement::Mem(_) => true,
            Statement::Hub(_, _, _) => self.hubs.len() < 8,
            Statement::DevHigh(_) => self.devices.len() < 127,
            Statement::DevBelow(_) => self.devices.len() < 127,
            Statement::Ep(_) => self.endpoints.len() < 256,
            Statement::Reply(name, answer) => {
                self.may_begin(name, answer) && self.may_script(answer_len(answer))
            }
            Statement::Fate(_) => self.fates.len() < 4_096,
            Statement::Stuff(_, _) => true,
            Statement::Hold(_, _) => self.holds.len() < 256,
            Statement::Open(_) => self.may_command(),
            Statement::Cancel(_) => self.may_command(),
            Statement::Clear(_) => self.may_command(),
            Statement::Get(line) => {
                self.may_command() && self.asked as u64 + line.len as u64 <= 4_194_304
            }
            Statement::Put(line) => {
                self.may_command() && self.may_script(content_len(&line.content))
            }
            Statement::Control(line) => {
                self.may_command() && self.may_script(bytes_len(&line.bytes))
            }
            Statement::Iso(_) => self.may_command(),
            Statement::Order(_, n) => {
                *n <= 1_000_000 && self.steps as u64 + *n as u64 <= 4_000_000
            }
            Statement::Micro(n) => self.microframes as u64 + *n as u64 <= 16_384,
            Statement::Unbuilt => true,
        }
    }

    /// The first cause of a line whose words fit a form.
    pub(crate) fn cause_of(&self, statement: &Statement) -> Option<TextWhy>
        ensures { result ≡ cause_of self.now statement.now }
    {
        if !self.in_range(statement) {
            return Some(TextWhy::Range);
        }
        if !self.is_known(statement) {
            return Some(TextWhy::Unknown);
        }
        if self.is_twice(statement) {
            return Some(TextWhy::Twice);
        }
        if !self.has_room(statement) {
            return Some(TextWhy::Limit);
        }
        None
    }
}
