ghost use Rattle.std.specs.Prelude.{◌≡◌};
ghost use Rattle.hc_microframe.specs.Answers.{pid_named, speed_number, kind_number, split_number, hub_of, port_of, part_number, words_of_ask};

use usb_base::{Ask, DataPart, EpKind, Packet, Pid, Speed, Split};

/// What the host hears in one transaction, as its caller writes it down.
#[repr(C)]
#[derive(Clone, Copy, Debug, PartialEq, Eq)]
pub struct Answer {
    /// 1: a handshake; 2: a data packet; else nothing that the host can use.
    pub kind: u8,
    /// The four bits of its packet identifier (USB 2.0, 8.3.1).
    pub pid: u8,
    /// How many bytes a data packet has, at most 1,024.
    pub len: u16,
    /// Where they begin among the bytes of all answers.
    pub start: u32,
}

/// One transaction that the controller asks of the bus (USB 2.0, 8.4 and 8.5), in numbers.
#[repr(C)]
#[derive(Clone, Copy, Debug, PartialEq, Eq)]
pub struct AskWords {
    /// The token: 1 OUT, 9 IN, 13 SETUP, 4 PING (USB 2.0, 8.3.1).
    pub pid: u8,
    /// The address of the device, 0 to 127.
    pub address: u8,
    /// The number of its endpoint, 0 to 15.
    pub endpoint: u8,
    /// The speed of the device: 0 full, 1 low, 2 high.
    pub speed: u8,
    /// The transfer type: 0 control, 1 isochronous, 2 bulk, 3 interrupt.
    pub kind: u8,
    /// The packet identifier of the data that are sent or expected: 3 DATA0, 11 DATA1, 7 DATA2, 15 MDATA.
    pub toggle: u8,
    /// 0: plain; 1: a start-split, 2: a complete-split to the translator of a hub.
    pub split: u8,
    /// The address of that hub; 0 without a split.
    pub hub: u8,
    /// The port of that hub; 0 without a split.
    pub port: u8,
    /// Which part of its data a start-split of an isochronous OUT carries: 0 all, 1 begin, 2 middle, 3 end.
    pub part: u8,
    /// The most bytes that the host can take.
    pub limit: u16,
    /// How many bytes are sent.
    pub out_len: u16,
}

/// A transaction that was asked when no answer was left: the ask, and the bytes that are sent.
#[derive(Debug, Drop)]
pub struct Wanted {
    /// What is asked.
    pub ask: Ask,
    /// The bytes that are sent.
    pub out: Packet,
}

/// The packet identifier with these four bits; None for a number that none has.
pub(crate) fn pid_of(bits: u8) -> Option<Pid>
    ensures { result ≡ pid_named bits }
{
    match bits {
        0x1 => Some(Pid::Out),
        0x9 => Some(Pid::In),
        0x5 => Some(Pid::Sof),
        0xd => Some(Pid::Setup),
        0x3 => Some(Pid::Data0),
        0xb => Some(Pid::Data1),
        0x7 => Some(Pid::Data2),
        0xf => Some(Pid::Mdata),
        0x2 => Some(Pid::Ack),
        0xa => Some(Pid::Nak),
        0xe => Some(Pid::Stall),
        0x6 => Some(Pid::Nyet),
        0xc => Some(Pid::Err),
        0x8 => Some(Pid::Split),
        0x4 => Some(Pid::Ping),
        _ => None,
    }
}

fn speed_of(speed: Speed) -> u8
    ensures { result ≡ speed_number speed }
{
    match speed {
        Speed::Full => 0,
        Speed::Low => 1,
        Speed::High => 2,
    }
}

fn kind_of(kind: EpKind) -> u8
    ensures { result ≡ kind_number kind }
{
    match kind {
        EpKind::Control => 0,
        EpKind::Iso => 1,
        EpKind::Bulk => 2,
        EpKind::Interrupt => 3,
    }
}

fn split_of(split: &Split) -> u8
    ensures { result ≡ split_number split.now }
{
    match split {
        Split::Plain => 0,
        Split::Start { .. } => 1,
        Split::Complete { .. } => 2,
    }
}

fn hub(split: &Split) -> u8
    ensures { result ≡ hub_of split.now }
{
    match split {
        Split::Plain => 0,
        Split::Start { hub, .. } => hub.get(),
        Split::Complete { hub, .. } => hub.get(),
    }
}

fn port(split: &Split) -> u8
    ensures { result ≡ port_of split.now }
{
    match split {
        Split::Plain => 0,
        Split::Start { port, .. } => *port,
        Split::Complete { port, .. } => *port,
    }
}

fn part(split: &Split) -> u8
    ensures { result ≡ part_number split.now }
{
    match split {
        Split::Start {
            part: DataPart::Begin,
            ..
        } => 1,
        Split::Start {
            part: DataPart::Middle,
            ..
        } => 2,
        Split::Start {
            part: DataPart::End,
            ..
        } => 3,
        _ => 0,
    }
}

/// A transaction that is wanted, in numbers.
pub fn ask_words(wanted: &Wanted) -> AskWords
    ensures { result ≡ words_of_ask wanted.now }
{
    let ask = &wanted.ask;
    AskWords {
        pid: ask.pid.bits(),
        address: ask.addr.get(),
        endpoint: ask.ep.get(),
        speed: speed_of(ask.speed),
        kind: kind_of(ask.kind),
        toggle: ask.toggle.bits(),
        split: split_of(&ask.split),
        hub: hub(&ask.split),
        port: port(&ask.split),
        part: part(&ask.split),
        limit: ask.limit,
        out_len: wanted.out.as_slice().len() as u16,
    }
}
