ghost use Rattle.std.specs.Prelude.{◌≡◌, ◌≤◌, ◌<◌, ◌==◌, Option, Some, length, slice_get, slice_set, position, find, IfOk, IfSome, IsTrue};
ghost use Rattle.std.specs.List.{list_all};
ghost use Rattle.std.specs.Option.{option_copied};
ghost use Rattle.endpoint_script.specs.Device.{is_scripted};
ghost use Rattle.hub_class.specs.HubContent.{has_few_ports};
ghost use Rattle.bus_wire.specs.Asking.{row_for};
ghost use Rattle.bus_wire.specs.Below.{below_at, hub_worked_at, floor_left, hubs_worked, floor_worked};
ghost use Rattle.bus_wire.specs.Bus.{stuff_of, hears_split, hears, asked_at, asked_of, answer_by, changed_by, begin_after, is_allowed, reply_at, after_at, reply_of, transact_after, opening_wired};
ghost use Rattle.bus_wire.specs.Fixed.{IsSeated};
ghost use Rattle.bus_wire.specs.WhoHeard.{answer_sent};
ghost use Rattle.bus_wire.specs.Told.{told_at, told_of, answer_told};
ghost use Rattle.std.specs.Prelude.{map};
ghost use Rattle.hub_class.specs.EndpointZero.{hub_reset};
ghost use Rattle.bus_wire.specs.Resets.{bus_reset};

use crate::asked::{Answerer, Asked, Losses};
use crate::asking::{ask_hub_at, ask_nobody, ask_translator_at};
use crate::below::BelowHub;
use crate::build::{devices_of, hubs_of};
use crate::fixed::FixedBus;
use crate::seats::{Owner, Seat};
use crate::told::Told;
use crate::who_heard::{WhoHeard, sent_before_answer, steps_later};
use endpoint_script::Device;
use hub_class::Hub;
use script_types::Script;
use std::alloc::Global;
use std::marker::Model;
use usb_base::{Ask, DevAddr, EpName, Memory, Reply, Split, Wire};

/// The bus of a script: its devices and hubs, and the packets between them and the host controller. Contracts see what is fixed of it,
/// `Fixed`, and what changes, `Bus`.
#[derive(Drop)]
pub struct UsbBus {
    below: BelowHub,
    hubs: Vec<Hub>,
    high: Vec<u64>,
    microframe: u64,
}

impl Model for UsbBus {
    ghost use Rattle.bus_wire.specs.Bus.{Wired};

    ghost Value = { Wired };

    ghost view = { λ b. record {
      fixed = b.below.fixed;
      bus = record {
        devices = b.below.floor.devices;
        hubs = b.hubs.items;
        high = b.high.items;
        below = b.below.floor.numbers;
        microframe = b.microframe;
      };
    } };
}

/// The address that no device has.
fn nobody() -> DevAddr {
    match DevAddr::new(0) {
        Some(addr) => addr,
        None => unreachable!(),
    }
}

/// How many bytes in 36 stuffed bits make the packets of an endpoint longer, which is so below a hub alone.
fn stuff(owner: &Owner) -> u8
    ensures { result ≡ stuff_of owner.now }
{
    match owner {
        Owner::Below { stuff, .. } => *stuff,
        Owner::Hub(_) | Owner::High(_) => 0,
    }
}

/// Lets a hub work for the microframe that ended, at the begin of the one with this frame index.
fn work_hub(hub: &mut Hub, below: &mut BelowHub, frindex: u16)
    ensures hub { hub.new ≡ hub_worked_at below.old.fixed frindex hub.old below.old.floor }
    ensures floor { below.new.floor ≡ floor_left below.old.fixed hub.old below.old.floor }
    ensures fixed { below.new.fixed ≡ below.old.fixed }
{
    below.turn_to(hub);
    hub.microframe(frindex, below);
}

/// Lets all hubs work, in their order.
fn work_hubs(hubs: &mut [Hub], below: &mut BelowHub, frindex: u16)
    ensures hubs { hubs.new ≡ hubs_worked below.old.fixed frindex hubs.old below.old.floor }
    ensures floor { below.new.floor ≡ floor_worked below.old.fixed hubs.old below.old.floor }
    ensures fixed { below.new.fixed ≡ below.old.fixed }
{
    for hub in hubs.iter_mut() {
        work_hub(hub, below, frindex);
    }
}

/// The endpoint with this name is reset, where it is one of a hub.
fn reset_hubs(hubs: &mut [Hub], name: &EpName)
    ensures { hubs.new ≡ map (hub_reset name.now) hubs.old }
{
    for hub in hubs.iter_mut() {
        hub.reset(name);
    }
}

impl UsbBus {
    /// The bus of a script, at the end of microframe 0.
    pub fn build(alloc: Global, script: &Script) -> Result<UsbBus, Memory>
        requires devices { IsTrue (list_all is_scripted script.now.devices) }
        requires hubs { IsTrue (list_all has_few_ports script.now.hubs) }
        ensures { IfOk result (λ b. b ≡ opening_wired script.now) }
    {
        let fixed = FixedBus::build(alloc, script)?;
        let devices = devices_of(alloc, script.devices.as_slice())?;
        let hubs = hubs_of(alloc, script.hubs.as_slice())?;
        let high = vec![in alloc; 0u64; fixed.seats().len()]?;
        let numbers = vec![in alloc; 0u64; fixed.seats().len()]?;
        Ok(UsbBus {
            below: BelowHub::new(fixed, devices, numbers, nobody()),
            hubs,
            high,
            microframe: 0,
        })
    }

    /// The endpoints: endpoint 0 of each hub, then those of the devices in the order of their lines.
    pub fn seats(&self) -> &[Seat]
        ensures { result.now ≡ self.now.fixed.seats }
    {
        self.below.fixed().seats()
    }

    /// The device with this address; None exactly where there is none.
    pub fn device(&self, addr: DevAddr) -> Option<&Device>
        ensures { option_copied result ≡ find (λ d. d.address == addr) self.now.bus.devices }
    {
        self.below
            .devices()
            .iter()
            .find(|device| device.address().get() == addr.get())
    }

    /// The hub with this address; None exactly where there is none.
    pub fn hub(&self, addr: DevAddr) -> Option<&Hub>
        ensures { option_copied result ≡ find (λ h. h.address == addr) self.now.bus.hubs }
    {
        self.hubs
            .iter()
            .find(|hub| hub.address().get() == addr.get())
    }

    /// The endpoint with this name is reset, as its halt is cleared (USB 2.0, 9.4.5). No packet is sent.
    pub fn reset(&mut self, name: &EpName)
        ensures { self.new ≡ record self.old { bus = bus_reset name.now self.old.bus } }
    {
        self.below.reset(name);
        reset_hubs(self.hubs.as_mut_slice(), name);
    }

    /// The number of the next packet below a translator of the endpoint at a place, from 0; None exactly where there is no such place.
    pub fn next_below(&self, place: usize) -> Option<u64>
        ensures { result ≡ slice_get self.now.bus.below place }
    {
        self.below.next(place)
    }

    /// The translator of the hub with this address, for an endpoint of this number of stuffed bits.
    fn translator(&self, addr: DevAddr, stuff: u8) -> Answerer
        ensures { result ≡ hears_split self.now.bus.hubs addr stuff }
    {
        match self.hub_place(addr) {
            Some(place) => Answerer::Translator(place, stuff),
            None => Answerer::Nobody,
        }
    }

    fn hub_place(&self, addr: DevAddr) -> Option<usize>
        ensures { result ≡ position (λ h. h.address == addr) self.now.bus.hubs }
    {
        self.hubs
            .iter()
            .position(|hub| hub.address().get() == addr.get())
    }

    /// Who hears an ask for an endpoint.
    fn hears(&self, split: &Split, owner: Owner) -> Answerer
        ensures { result ≡ hears self.now.bus split.now owner }
    {
        match (split, owner) {
            (Split::Start { hub, .. } | Split::Complete { hub, .. }, _) => {
                self.translator(*hub, stuff(&owner))
            }
            (Split::Plain, Owner::Hub(place)) => Answerer::Hub(place),
            (Split::Plain, Owner::High(place)) => Answerer::Device(place),
            (Split::Plain, Owner::Below { .. }) => Answerer::Nobody,
        }
    }

    fn asked_at(&self, split: &Split, place: usize) -> Option<Asked>
        ensures asked { result ≡ asked_at self.now.fixed self.now.bus split.now place }
        ensures seated { IfSome result (λ e. IsSeated self.now.fixed.seats e) }
    {
        let seat = self.below.fixed().seat(place)?;
        match self.high.get(place) {
            Some(packet) => Some(Asked {
                place,
                name: seat.name,
                packet: *packet,
                who: self.hears(split, seat.owner),
            }),
            None => None,
        }
    }

    /// The endpoint that an ask is for.
    fn asked(&self, ask: &Ask) -> Option<Asked>
        ensures asked { result ≡ asked_of self.now.fixed self.now.bus ask.now }
        ensures seated { IfSome result (λ e. IsSeated self.now.fixed.seats e) }
    {
        match self.below.fixed().place_of(ask) {
            Some(place) => self.asked_at(&ask.split, place),
            None => None,
        }
    }
}

impl UsbBus {
    /// Asks whoever hears it; `reply` becomes the answer that was sent, heard or not.
    fn ask(
        &mut self,
        who: Answerer,
        ask: &Ask,
        out: &[u8],
        losses: &Losses,
        reply: &mut Reply,
    ) -> WhoHeard
        requires { length out.now ≤ 1024 }
        ensures row { result ≡ row_for losses.now ask.now (answer_by self.old.bus who ask.now out.now) }
        ensures reply { reply.new ≡ answer_sent result (answer_by self.old.bus who ask.now out.now) }
        ensures after { self.new ≡ record self.old { bus = changed_by result who ask.now out.now self.old.bus } }
    {
        match who {
            Answerer::Device(place) => self.below.ask_device(place, ask, out, losses, reply),
            Answerer::Hub(place) => {
                ask_hub_at(self.hubs.as_mut_slice(), place, ask, out, losses, reply)
            }
            Answerer::Translator(place, stuff) => {
                ask_translator_at(
                    self.hubs.as_mut_slice(),
                    place,
                    ask,
                    out,
                    stuff,
                    losses,
                    reply,
                )
            }
            Answerer::Nobody => ask_nobody(ask, losses, reply),
        }
    }

    /// The number of the next packet of the endpoint at a place.
    fn count(&mut self, place: usize, packet: u64)
        ensures { self.new ≡ record self.old { bus = record self.old.bus { high = slice_set self.old.bus.high place packet } } }
    {
        if place < self.high.len() {
            self.high[place] = packet;
        }
    }

    /// Asks an endpoint.
    fn transact_at(&mut self, asked: &Asked, ask: &Ask, out: &[u8], reply: &mut Reply) -> Told
        requires sent { length out.now ≤ 1024 }
        requires seated { IsSeated self.old.fixed.seats asked.now }
        ensures told { result ≡ told_at self.old.fixed self.old.bus ask.now out.now asked.now }
        ensures reply { reply.new ≡ answer_sent result.row (answer_by self.old.bus asked.now.who ask.now out.now) }
        ensures after { self.new ≡ record self.old { bus = after_at self.old.fixed self.old.bus ask.now out.now (Some asked.now) } }
    {
        let sent = sent_before_answer(ask);
        let losses = self.below.fixed().losses(false, asked, sent);
        let row = self.ask(asked.who, ask, out, &losses, reply);
        self.count(asked.place, steps_later(asked.packet, row.packets(sent)));
        Told {
            asked: *asked,
            losses,
            row,
        }
    }

    /// Makes one transaction that sends `out`, at most 1,024 bytes, as the wire does, and tells what went over the high-speed bus. `answer`
    /// becomes what was answered, whether the asker heard it or not: nothing where what it sent was unheard. None: it asked for no endpoint.
    pub fn transact_told(&mut self, ask: &Ask, out: &[u8], answer: &mut Reply) -> Option<Told>
        requires { length out.now ≤ 1024 }
        ensures told { result ≡ told_of self.old.fixed self.old.bus ask.now out.now }
        ensures answer { answer.new ≡ answer_told self.old.fixed self.old.bus ask.now out.now }
        ensures after { self.new ≡ record self.old { bus = transact_after self.old.fixed self.old.bus ask.now out.now } }
    {
        match self.asked(ask) {
            Some(asked) => Some(self.transact_at(&asked, ask, out, answer)),
            None => {
                *answer = Reply::Silent;
                None
            }
        }
    }
}

impl Wire for UsbBus {
    ghost begins = { λ w frindex allowed v. (allowed ≡ is_allowed w.fixed w.bus) × (v ≡ record w { bus = begin_after w.fixed frindex w.bus }) };

    ghost transacts = { λ w ask out reply v. (reply ≡ reply_of w.fixed w.bus ask out) × (v ≡ record w { bus = transact_after w.fixed w.bus ask out }) };

    fn begin(&mut self, frindex: u16) -> bool {
        self.microframe = steps_later(self.microframe, 1);
        work_hubs(self.hubs.as_mut_slice(), &mut self.below, frindex);
        self.below.begin_devices(frindex);
        !self.below.fixed().holds_back(self.microframe)
    }

    #[tactic(auto, using(crate::proofs::Sent::hears_sent))]
    fn transact(&mut self, ask: &Ask, out: &[u8], reply: &mut Reply) {
        match self.asked(ask) {
            Some(asked) => {
                let told = self.transact_at(&asked, ask, out, reply);
                told.row.let_hear(reply);
            }
            None => *reply = Reply::Silent,
        }
    }
}
