ghost use Rattle.std.specs.Prelude.{◌≡◌, ◌≤◌, ◌<◌, ◌&&◌, ◌==◌, Option, Some, length, map, slice_get, slice_set, true, false, unwrap_or, IfSome};
ghost use Rattle.std.specs.List.{range_with_len};
ghost use Rattle.endpoint_script.specs.Device.{Device as DeviceContent};
ghost use Rattle.hub_ports.specs.Ports.{is_enabled};
ghost use Rattle.bus_wire.specs.Asking.{row_for, device_after, device_answer, changed_at};
ghost use Rattle.bus_wire.specs.Below.{below_at, enabled_ports, hears_at, asked_below_at, asked_below, floor_answer, devices_after, below_reply_at, below_after_at, below_reply, below_after};
ghost use Rattle.bus_wire.specs.Bus.{begins_anew, begun_at};
ghost use Rattle.bus_wire.specs.Fixed.{IsSeated};
ghost use Rattle.bus_wire.specs.WhoHeard.{answer_sent};
ghost use Rattle.endpoint_script.specs.Resets.{device_reset};

use crate::asked::{Answerer, Asked, Losses};
use crate::asking::{ask_device_at, ask_nobody};
use crate::fixed::FixedBus;
use crate::seats::Owner;
use crate::who_heard::{WhoHeard, sent_before_answer, steps_later};
use endpoint_script::Device;
use hub_class::Hub;
use std::marker::Model;
use usb_base::{Ask, DevAddr, EpName, Reply, Speed, Wire};

/// The devices of a bus, and the bus below the hub that works now: as a `Wire` that of its translator. Contracts see a `Below`.
#[derive(Drop)]
pub struct BelowHub {
    fixed: FixedBus,
    devices: Vec<Device>,
    numbers: Vec<u64>,
    hub: DevAddr,
    enabled: [bool; 16],
}

impl Model for BelowHub {
    ghost use Rattle.bus_wire.specs.Below.{Below};

    ghost Value = { Below };

    ghost view = { λ b. record {
      fixed = b.fixed;
      floor = record { devices = b.devices.items; numbers = b.numbers.items };
      hub = b.hub;
      enabled = b.enabled;
    } };
}

/// Which ports of a hub are enabled, by their numbers.
fn ports_enabled(hub: &Hub) -> [bool; 16]
    ensures { result ≡ enabled_ports hub.now }
{
    [
        hub.enabled(0),
        hub.enabled(1),
        hub.enabled(2),
        hub.enabled(3),
        hub.enabled(4),
        hub.enabled(5),
        hub.enabled(6),
        hub.enabled(7),
        hub.enabled(8),
        hub.enabled(9),
        hub.enabled(10),
        hub.enabled(11),
        hub.enabled(12),
        hub.enabled(13),
        hub.enabled(14),
        hub.enabled(15),
    ]
}

fn is_new(speed: Speed, frindex: u16) -> bool
    ensures { result ≡ begins_anew speed frindex }
{
    match speed {
        Speed::High => true,
        Speed::Full | Speed::Low => frindex % 8 == 0,
    }
}

/// A microframe begins for a device.
fn begin_device(device: &mut Device, frindex: u16)
    ensures { device.new ≡ begun_at frindex device.old }
{
    if is_new(device.speed(), frindex) {
        device.begin();
    }
}

fn begin_devices(devices: &mut [Device], frindex: u16)
    ensures { devices.new ≡ map (begun_at frindex) devices.old }
{
    for device in devices.iter_mut() {
        begin_device(device, frindex);
    }
}

/// The endpoint with this name is reset.
fn reset_devices(devices: &mut [Device], name: &EpName)
    ensures { devices.new ≡ map (device_reset name.now) devices.old }
{
    for device in devices.iter_mut() {
        device.reset(name);
    }
}

impl BelowHub {
    /// The devices of a bus, below no hub yet.
    pub fn new(
        fixed: FixedBus,
        devices: Vec<Device>,
        numbers: Vec<u64>,
        nobody: DevAddr,
    ) -> BelowHub
        ensures fixed { result.fixed ≡ fixed }
        ensures floor { result.floor ≡ record { devices = devices.items; numbers = numbers.items } }
    {
        BelowHub {
            fixed,
            devices,
            numbers,
            hub: nobody,
            enabled: [false; 16],
        }
    }

    /// What never changes of the bus.
    pub fn fixed(&self) -> &FixedBus
        ensures { result.now ≡ self.now.fixed }
    {
        &self.fixed
    }

    /// The number of the next packet of the endpoint at a place; None exactly where there is no such place.
    pub fn next(&self, place: usize) -> Option<u64>
        ensures { result ≡ slice_get self.now.floor.numbers place }
    {
        self.numbers.get(place).copied()
    }

    /// The devices.
    pub fn devices(&self) -> &[Device]
        ensures { result.now ≡ self.now.floor.devices }
    {
        self.devices.as_slice()
    }

    /// From now on it is the bus below this hub.
    pub fn turn_to(&mut self, hub: &Hub)
        ensures { self.new ≡ below_at self.old.fixed hub.now self.old.floor }
    {
        self.hub = hub.address();
        self.enabled = ports_enabled(hub);
    }

    /// A microframe begins for the devices.
    pub fn begin_devices(&mut self, frindex: u16)
        ensures { self.new ≡ record self.old { floor = record self.old.floor { devices = map (begun_at frindex) self.old.floor.devices } } }
    {
        begin_devices(self.devices.as_mut_slice(), frindex);
    }

    /// The endpoint with this name is reset.
    pub fn reset(&mut self, name: &EpName)
        ensures { self.new ≡ record self.old {
          floor = record self.old.floor {
            devices = map (device_reset name.now) self.old.floor.devices;
          };
        } }
    {
        reset_devices(self.devices.as_mut_slice(), name);
    }

    /// Asks the device at a place; `reply` becomes the answer that it sent, heard or not.
    pub fn ask_device(
        &mut self,
        place: usize,
        ask: &Ask,
        out: &[u8],
        losses: &Losses,
        reply: &mut Reply,
    ) -> WhoHeard
        requires { length out.now ≤ 1024 }
        ensures row { result ≡ row_for losses.now ask.now (device_answer (slice_get self.old.floor.devices place) ask.now out.now) }
        ensures reply { reply.new ≡ answer_sent result (device_answer (slice_get self.old.floor.devices place) ask.now out.now) }
        ensures after { self.new ≡ record self.old { floor = record self.old.floor { devices = changed_at place (device_after result ask.now out.now) self.old.floor.devices } } }
    {
        ask_device_at(self.devices.as_mut_slice(), place, ask, out, losses, reply)
    }
}

impl BelowHub {
    /// Whether a port of the hub is enabled.
    fn is_enabled(&self, port: u8) -> bool
        ensures { result ≡ unwrap_or (slice_get self.now.enabled port) false }
    {
        match self.enabled.get(port as usize) {
            Some(enabled) => *enabled,
            None => false,
        }
    }

    /// Who hears an ask for an endpoint.
    fn hears(&self, owner: Owner) -> Answerer
        ensures { result ≡ hears_at self.now owner }
    {
        match owner {
            Owner::Below {
                device,
                hub,
                port,
                ..
            } => {
                if hub.get() == self.hub.get() && self.is_enabled(port) {
                    Answerer::Device(device)
                } else {
                    Answerer::Nobody
                }
            }
            Owner::High(_) | Owner::Hub(_) => Answerer::Nobody,
        }
    }

    fn asked_at(&self, place: usize) -> Option<Asked>
        ensures asked { result ≡ asked_below_at self.now place }
        ensures seated { IfSome result (λ e. IsSeated self.now.fixed.seats e) }
    {
        let seat = self.fixed.seat(place)?;
        match self.numbers.get(place) {
            Some(packet) => Some(Asked {
                place,
                name: seat.name,
                packet: *packet,
                who: self.hears(seat.owner),
            }),
            None => None,
        }
    }

    /// The endpoint that an ask is for.
    fn asked(&self, ask: &Ask) -> Option<Asked>
        ensures asked { result ≡ asked_below self.now ask.now }
        ensures seated { IfSome result (λ e. IsSeated self.now.fixed.seats e) }
    {
        match self.fixed.place_of(ask) {
            Some(place) => self.asked_at(place),
            None => None,
        }
    }

    /// Asks whoever hears it; `reply` becomes the answer that was sent, heard or not.
    fn ask(
        &mut self,
        who: Answerer,
        ask: &Ask,
        out: &[u8],
        losses: &Losses,
        reply: &mut Reply,
    ) -> WhoHeard
        requires { length out.now ≤ 1024 }
        ensures row { result ≡ row_for losses.now ask.now (floor_answer self.old.floor who ask.now out.now) }
        ensures reply { reply.new ≡ answer_sent result (floor_answer self.old.floor who ask.now out.now) }
        ensures after { self.new ≡ record self.old { floor = record self.old.floor { devices = devices_after result who ask.now out.now self.old.floor.devices } } }
    {
        match who {
            Answerer::Device(place) => self.ask_device(place, ask, out, losses, reply),
            Answerer::Hub(_) | Answerer::Translator(_, _) | Answerer::Nobody => {
                ask_nobody(ask, losses, reply)
            }
        }
    }

    /// The number of the next packet of the endpoint at a place.
    fn count(&mut self, place: usize, packet: u64)
        ensures { self.new ≡ record self.old { floor = record self.old.floor { numbers = slice_set self.old.floor.numbers place packet } } }
    {
        if place < self.numbers.len() {
            self.numbers[place] = packet;
        }
    }

    /// Asks an endpoint.
    #[tactic(auto, using(crate::proofs::Sent::hears_sent))]
    fn transact_at(&mut self, asked: &Asked, ask: &Ask, out: &[u8], reply: &mut Reply)
        requires sent { length out.now ≤ 1024 }
        requires seated { IsSeated self.old.fixed.seats asked.now }
        ensures reply { reply.new ≡ below_reply_at self.old ask.now out.now (Some asked.now) }
        ensures after { self.new ≡ below_after_at self.old ask.now out.now (Some asked.now) }
    {
        let sent = sent_before_answer(ask);
        let losses = self.fixed.losses(true, asked, sent);
        let row = self.ask(asked.who, ask, out, &losses, reply);
        self.count(asked.place, steps_later(asked.packet, row.packets(sent)));
        row.let_hear(reply);
    }
}

impl Wire for BelowHub {
    ghost begins = { λ w frindex allowed v. (allowed ≡ true) × (v ≡ w) };

    ghost transacts = { λ w ask out reply v. (reply ≡ below_reply w ask out) × (v ≡ below_after w ask out) };

    /// Nothing holds a translator back.
    fn begin(&mut self, _frindex: u16) -> bool {
        true
    }

    fn transact(&mut self, ask: &Ask, out: &[u8], reply: &mut Reply) {
        match self.asked(ask) {
            Some(asked) => self.transact_at(&asked, ask, out, reply),
            None => *reply = Reply::Silent,
        }
    }
}
