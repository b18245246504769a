//! The bus below the hub at work, with a record of its transactions.
ghost use Rattle.std.specs.Prelude.{◌≡◌, ◌≤◌, length, map, slice_get, slice_set, true, false, unwrap_or, Option, Some};
ghost use Rattle.bus_wire.specs.Asking.{unheard_later, losses_of, row_for};
ghost use Rattle.bus_wire.specs.Below.{enabled_ports, hears_at, asked_below_at, asked_below, floor_answer, devices_after, below_reply_at, below_after_at, below_reply, below_after};
ghost use Rattle.bus_wire.specs.Bus.{begun_at};
ghost use Rattle.endpoint_script.specs.Resets.{device_reset};
ghost use Rattle.bus_wire.specs.Fates.{is_unheard};
ghost use Rattle.bus_wire.specs.Seats.{token_kind, place_for};
ghost use Rattle.bus_wire.specs.WhoHeard.{answer_sent, packets_sent};

use crate::devices::{ask_device_at, ask_nobody, begin_device};
use crate::fates::{fates_of, is_unheard, later, packets_sent};
use crate::recorder::{answer_in, bytes_in};
use bus_packets::{Exchange, Passed, end_of};
use bus_wire::{Answerer, Asked, Losses, Owner, Seat, TokenKind, Told, WhoHeard};
use endpoint_script::Device;
use hub_class::Hub;
use script_types::FateText;
use std::marker::Model;
use usb_base::{Ask, EpName, Packet, Pid, Reply, Wire};

/// The devices of a bus as they stand below the hub at work: as a `Wire` that of its translators.
#[derive(Drop)]
pub struct BelowBus {
    seats: Vec<Seat>,
    fates: Vec<FateText>,
    devices: Vec<Device>,
    numbers: Vec<u64>,
    hub: u8,
    multi: bool,
    enabled: [bool; 16],
    passed: Vec<Passed>,
    is_whole: bool,
}

impl Model for BelowBus {
    ghost use Rattle.bus_recorder.specs.Beneath.{Beneath, below_of};

    ghost Value = { Beneath };

    ghost view = { λ b. record {
      below = below_of b.seats.items b.fates.items (record { devices = b.devices.items; numbers = b.numbers.items }) b.hub b.enabled;
      passed = b.passed.items;
    } };
}

/// The kind of a token.
fn kind_of_token(pid: Pid) -> TokenKind
    ensures { result ≡ token_kind pid }
{
    match pid {
        Pid::In => TokenKind::In,
        Pid::Out | Pid::Ping => TokenKind::Out,
        Pid::Setup => TokenKind::Setup,
        _ => TokenKind::Other,
    }
}

/// Which ports of a hub are enabled, by their numbers.
fn ports_enabled(hub: &Hub) -> [bool; 16]
    ensures { result ≡ enabled_ports hub.now }
{
    [
        hub.enabled(0),
        hub.enabled(1),
        hub.enabled(2),
        hub.enabled(3),
        hub.enabled(4),
        hub.enabled(5),
        hub.enabled(6),
        hub.enabled(7),
        hub.enabled(8),
        hub.enabled(9),
        hub.enabled(10),
        hub.enabled(11),
        hub.enabled(12),
        hub.enabled(13),
        hub.enabled(14),
        hub.enabled(15),
    ]
}

/// Whether the packet some packets later is lost or damaged.
fn unheard_later(fates: &[FateText], asked: &Asked, n: u64) -> bool
    ensures { result ≡ unheard_later fates.now true asked.now n }
{
    is_unheard(fates, &asked.name, true, later(asked.packet, n))
}

/// Which packets of a transaction are lost or damaged, of which so many are sent before the answer.
fn losses(fates: &[FateText], asked: &Asked, sent: u64) -> Losses
    requires some { 1 ≤ sent }
    requires few { sent ≤ 2 }
    ensures { result ≡ losses_of fates.now true asked.now sent }
{
    Losses {
        sent: unheard_later(fates, asked, 0) || unheard_later(fates, asked, sent - 1),
        answer: unheard_later(fates, asked, sent),
        acknowledgement: unheard_later(fates, asked, sent + 1),
    }
}

fn begin_devices(devices: &mut [Device], frindex: u16)
    ensures { devices.new ≡ map (begun_at frindex) devices.old }
{
    for device in devices.iter_mut() {
        begin_device(device, frindex);
    }
}

fn reset_devices(devices: &mut [Device], name: &EpName)
    ensures { devices.new ≡ map (device_reset name.now) devices.old }
{
    for device in devices.iter_mut() {
        device.reset(name);
    }
}

impl BelowBus {
    /// These devices with these endpoints, below no hub yet.
    pub fn new(
        seats: Vec<Seat>,
        fates: Vec<FateText>,
        devices: Vec<Device>,
        numbers: Vec<u64>,
        passed: Vec<Passed>,
    ) -> BelowBus {
        BelowBus {
            seats,
            fates,
            devices,
            numbers,
            hub: 0,
            multi: false,
            enabled: [false; 16],
            passed,
            is_whole: true,
        }
    }

    /// From now on it is the bus below this hub.
    pub fn turn_to(&mut self, hub: &Hub, multi: bool)
        ensures { self.new ≡ record self.old {
          below = record self.old.below { hub = hub.now.address; enabled = enabled_ports hub.now };
        } }
    {
        self.hub = hub.address().get();
        self.multi = multi;
        self.enabled = ports_enabled(hub);
    }

    /// A microframe begins for the devices.
    pub fn begin_devices(&mut self, frindex: u16)
        ensures { self.new ≡ record self.old {
          below = record self.old.below {
            floor = record self.old.below.floor { devices = map (begun_at frindex) self.old.below.floor.devices };
          };
        } }
    {
        begin_devices(self.devices.as_mut_slice(), frindex);
    }

    /// The endpoint with this name is reset (USB 2.0, 9.4.5).
    pub fn reset(&mut self, name: &EpName)
        ensures { self.new ≡ record self.old {
          below = record self.old.below {
            floor = record self.old.below.floor { devices = map (device_reset name.now) self.old.below.floor.devices };
          };
        } }
    {
        reset_devices(self.devices.as_mut_slice(), name);
    }

    /// From now on no transaction is recorded, until the next is made.
    pub fn forget(&mut self)
        ensures { self.new.below ≡ self.old.below }
    {
        self.passed.clear();
    }

    /// The transactions that were made since the record was cleared.
    pub fn passed(&self) -> &[Passed]
        ensures { result.now ≡ self.now.passed }
    {
        self.passed.as_slice()
    }

    /// Whether each transaction found room in the record.
    pub fn is_whole(&self) -> bool {
        self.is_whole
    }
}

impl BelowBus {
    /// Whether a port of the hub is enabled.
    fn is_enabled(&self, port: u8) -> bool
        ensures { result ≡ unwrap_or (slice_get self.now.below.enabled port) false }
    {
        match self.enabled.get(port as usize) {
            Some(enabled) => *enabled,
            None => false,
        }
    }

    /// Who hears an ask for an endpoint.
    fn hears(&self, owner: Owner) -> Answerer
        ensures { result ≡ hears_at self.now.below owner }
    {
        match owner {
            Owner::Below {
                device,
                hub,
                port,
                ..
            } => {
                if hub.get() == self.hub && self.is_enabled(port) {
                    Answerer::Device(device)
                } else {
                    Answerer::Nobody
                }
            }
            Owner::High(_) | Owner::Hub(_) => Answerer::Nobody,
        }
    }

    fn asked_at(&self, place: usize) -> Option<Asked>
        ensures { result ≡ asked_below_at self.now.below place }
    {
        let seat = self.seats.get(place).copied()?;
        match self.numbers.get(place) {
            Some(packet) => Some(Asked {
                place,
                name: seat.name,
                packet: *packet,
                who: self.hears(seat.owner),
            }),
            None => None,
        }
    }

    /// The place of the endpoint that an ask is for.
    fn place(&self, ask: &Ask) -> Option<usize>
        ensures { result ≡ place_for self.now.below.fixed.seats ask.now.addr ask.now.ep (token_kind ask.now.pid) }
    {
        let kind = kind_of_token(ask.pid);
        let addr = ask.addr.get() as usize;
        let num = ask.ep.get() as usize;
        self.seats
            .iter()
            .position(|seat| seat.suits(addr, num, kind))
    }

    /// The endpoint that an ask is for.
    fn asked(&self, ask: &Ask) -> Option<Asked>
        ensures { result ≡ asked_below self.now.below ask.now }
    {
        match self.place(ask) {
            Some(place) => self.asked_at(place),
            None => None,
        }
    }

    /// Asks whoever hears it; `reply` becomes the answer that was sent, heard or not.
    fn ask(
        &mut self,
        who: Answerer,
        ask: &Ask,
        out: &[u8],
        losses: &Losses,
        reply: &mut Reply,
    ) -> WhoHeard
        requires { length out.now ≤ 1024 }
        ensures row { result ≡ row_for losses.now ask.now (floor_answer self.old.below.floor who ask.now out.now) }
        ensures reply { reply.new ≡ answer_sent result (floor_answer self.old.below.floor who ask.now out.now) }
        ensures after { self.new ≡ record self.old {
          below = record self.old.below {
            floor = record self.old.below.floor {
              devices = devices_after result who ask.now out.now self.old.below.floor.devices;
            };
          };
        } }
    {
        match who {
            Answerer::Device(place) => {
                ask_device_at(self.devices.as_mut_slice(), place, ask, out, losses, reply)
            }
            Answerer::Hub(_) | Answerer::Translator(_, _) | Answerer::Nobody => {
                ask_nobody(ask, losses, reply)
            }
        }
    }

    /// The number of the next packet of the endpoint at a place.
    fn count(&mut self, place: usize, packet: u64)
        ensures { self.new ≡ record self.old {
          below = record self.old.below {
            floor = record self.old.below.floor { numbers = slice_set self.old.below.floor.numbers place packet };
          };
        } }
    {
        if place < self.numbers.len() {
            self.numbers[place] = packet;
        }
    }

    /// Asks an endpoint; `reply` becomes the answer that was sent, heard or not.
    fn make(&mut self, asked: &Asked, ask: &Ask, out: &[u8], reply: &mut Reply) -> Told
        requires { length out.now ≤ 1024 }
        ensures row { result.row ≡ row_for
            (losses_of self.old.below.fixed.fates true asked.now (packets_sent ask.now.split ask.now.pid)) ask.now
            (floor_answer self.old.below.floor asked.now.who ask.now out.now) }
        ensures reply { reply.new ≡ answer_sent result.row (floor_answer self.old.below.floor asked.now.who ask.now out.now) }
        ensures after { self.new.below ≡ below_after_at self.old.below ask.now out.now (Some asked.now) }
    {
        let sent = packets_sent(&ask.split, ask.pid);
        let losses = losses(self.fates.as_slice(), asked, sent);
        let row = self.ask(asked.who, ask, out, &losses, reply);
        self.count(asked.place, later(asked.packet, row.packets(sent)));
        Told {
            asked: *asked,
            losses,
            row,
        }
    }
}

impl BelowBus {
    /// The port whose bus an endpoint is on; 0 where a translator serves all ports.
    fn port(&self, place: usize) -> u8 {
        if !self.multi {
            return 0;
        }
        match self.seats.get(place) {
            Some(seat) => match seat.owner {
                Owner::Below { port, .. } => port,
                Owner::High(_) | Owner::Hub(_) => 0,
            },
            None => 0,
        }
    }

    /// When the next transaction can begin on the bus of a port.
    fn time(&self, port: u8) -> u64 {
        let mut time = 0u64;
        for passed in self.passed.iter() {
            if passed.hub == self.hub && passed.port == port {
                time = u64::max(time, end_of(passed.time, &passed.exchange));
            }
        }
        time
    }

    /// What is recorded of a transaction.
    fn exchange(&self, told: &Told, ask: &Ask, out: &[u8], answer: &Reply) -> Exchange
        requires { length out.now ≤ 1024 }
    {
        let asked = &told.asked;
        Exchange {
            ask: *ask,
            sent: out.len() as u16,
            told: *told,
            answer: answer_in(answer),
            fates: fates_of(
                self.fates.as_slice(),
                &asked.name,
                true,
                asked.packet,
                packets_sent(&ask.split, ask.pid),
            ),
        }
    }

    /// Records a transaction, with the answer that was sent.
    fn keep(&mut self, told: &Told, ask: &Ask, out: &[u8], answer: &Reply)
        requires { length out.now ≤ 1024 }
        ensures { self.new.below ≡ self.old.below }
    {
        let port = self.port(told.asked.place);
        let passed = Passed {
            hub: self.hub,
            port,
            time: self.time(port),
            exchange: self.exchange(told, ask, out, answer),
            sent: Packet::copy_of(out),
            got: Packet::copy_of(bytes_in(answer)),
        };
        if self.passed.push(passed).is_err() {
            self.is_whole = false;
        }
    }

    /// Asks an endpoint, and records it.
    #[tactic(auto, using(bus_wire::proofs::Sent::hears_sent))]
    fn transact_at(&mut self, asked: &Asked, ask: &Ask, out: &[u8], reply: &mut Reply)
        requires { length out.now ≤ 1024 }
        ensures reply { reply.new ≡ below_reply_at self.old.below ask.now out.now (Some asked.now) }
        ensures after { self.new.below ≡ below_after_at self.old.below ask.now out.now (Some asked.now) }
    {
        let told = self.make(asked, ask, out, reply);
        self.keep(&told, ask, out, reply);
        told.row.let_hear(reply);
    }
}

impl Wire for BelowBus {
    ghost begins = { λ w frindex allowed v. (allowed ≡ true) × (v ≡ w) };

    ghost transacts = { λ w ask out reply v. (reply ≡ below_reply w.below ask out) × (v.below ≡ below_after w.below ask out) };

    /// Nothing holds a translator back.
    fn begin(&mut self, _frindex: u16) -> bool {
        true
    }

    fn transact(&mut self, ask: &Ask, out: &[u8], reply: &mut Reply) {
        match self.asked(ask) {
            Some(asked) => self.transact_at(&asked, ask, out, reply),
            None => *reply = Reply::Silent,
        }
    }
}
