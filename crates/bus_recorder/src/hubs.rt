//! Hubs that follow those of a bus, so that what their translators do below is seen.
ghost use Rattle.std.specs.Prelude.{◌≡◌, ◌≤◌, length};

use crate::beneath::BelowBus;
use bus_packets::{Exchange, Passed};
use bus_wire::{Answerer, Seat, WhoHeard};
use endpoint_script::{Device, is_scripted};
use hub_class::Hub;
use script_types::{DeviceText, FateText, HubText, Script};
use std::alloc::Global;
use std::marker::Model;
use usb_base::{EpName, Memory};

/// A hub, and whether it has a translator for each port.
#[derive(Drop)]
struct HubBelow {
    hub: Hub,
    multi: bool,
}

impl Model for HubBelow {
    ghost use Rattle.hub_class.specs.HubContent.{HubContent};

    ghost Value = { HubContent };

    ghost view = { λ h. h.hub };
}

/// Hubs and devices that are told each transaction of the host with a hub, and then do what the bus's do.
#[derive(Drop)]
pub struct BelowRecorder {
    hubs: Vec<HubBelow>,
    below: BelowBus,
}

impl Model for BelowRecorder {
    ghost use Rattle.bus_recorder.specs.Beneath.{Follower};

    ghost Value = { Follower };

    ghost view = { λ r. record { hubs = r.hubs.items; beneath = r.below } };
}

fn device_of(alloc: Global, text: &DeviceText) -> Result<Device, Memory> {
    if is_scripted(text) {
        return Device::build(alloc, text);
    }
    Err(Memory)
}

fn devices_of(alloc: Global, texts: &[DeviceText]) -> Result<Vec<Device>, Memory> {
    let mut devices = Vec::new(alloc);
    for text in texts {
        let device = device_of(alloc, text)?;
        if devices.push(device).is_err() {
            return Err(Memory);
        }
    }
    Ok(devices)
}

fn hub_of(alloc: Global, text: &HubText) -> Result<HubBelow, Memory> {
    if text.attached.as_slice().len() > 255 {
        return Err(Memory);
    }
    Ok(HubBelow {
        hub: Hub::build(alloc, text)?,
        multi: text.multi,
    })
}

fn hubs_of(alloc: Global, texts: &[HubText]) -> Result<Vec<HubBelow>, Memory> {
    let mut hubs = Vec::new(alloc);
    for text in texts {
        let hub = hub_of(alloc, text)?;
        if hubs.push(hub).is_err() {
            return Err(Memory);
        }
    }
    Ok(hubs)
}

/// The endpoints, the lines against packets, and the number of each endpoint's next packet.
fn tables_of(
    alloc: Global,
    script: &Script,
    seats: &[Seat],
) -> Result<(Vec<Seat>, Vec<FateText>, Vec<u64>), Memory> {
    let numbers = vec![in alloc; 0u64; seats.len()]?;
    let seats = Vec::from_slice(alloc, seats)?;
    let fates = Vec::from_slice(alloc, script.fates.as_slice())?;
    Ok((seats, fates, numbers))
}

/// The devices of a script with these endpoints, below no hub yet.
fn below_of(alloc: Global, script: &Script, seats: &[Seat]) -> Result<BelowBus, Memory> {
    let devices = devices_of(alloc, script.devices.as_slice())?;
    let (seats, fates, numbers) = tables_of(alloc, script, seats)?;
    Ok(BelowBus::new(seats, fates, devices, numbers, Vec::new(alloc)))
}

impl HubBelow {
    /// A transaction of the host with its endpoint 0 was heard.
    fn answer(&mut self, exchange: &Exchange, sent: &[u8])
        requires { length sent.now ≤ 1024 }
    {
        let _answer = self.hub.answer(&exchange.ask, sent);
        if exchange.told.row == WhoHeard::AckHeard {
            self.hub.acked(&exchange.ask);
        }
    }

    /// A split for one of its translators was heard.
    fn split(&mut self, exchange: &Exchange, sent: &[u8], stuff: u8)
        requires { length sent.now ≤ 1024 }
    {
        let _answer = self.hub.transact(&exchange.ask, sent, stuff);
    }

    /// The work on the bus below for the microframe that ended.
    fn work(&mut self, frindex: u16, below: &mut BelowBus) {
        below.turn_to(&self.hub, self.multi);
        self.hub.microframe(frindex, below);
    }
}

impl BelowRecorder {
    /// The hubs and devices of a script with these endpoints, at the end of microframe 0.
    ///
    /// # Errors
    ///
    /// `Memory` where a part of it finds no room.
    pub fn build(alloc: Global, script: &Script, seats: &[Seat]) -> Result<BelowRecorder, Memory> {
        let below = below_of(alloc, script, seats)?;
        let hubs = hubs_of(alloc, script.hubs.as_slice())?;
        Ok(BelowRecorder { hubs, below })
    }

    /// The host made this transaction, in which it sent these bytes.
    pub fn follow(&mut self, exchange: &Exchange, sent: &[u8])
        requires { length sent.now ≤ 1024 }
    {
        if exchange.told.row == WhoHeard::SentUnheard {
            return;
        }
        match exchange.told.asked.who {
            Answerer::Hub(place) => {
                if place < self.hubs.len() {
                    self.hubs[place].answer(exchange, sent);
                }
            }
            Answerer::Translator(place, stuff) => {
                if place < self.hubs.len() {
                    self.hubs[place].split(exchange, sent, stuff);
                }
            }
            Answerer::Device(_) | Answerer::Nobody => {}
        }
    }

    /// The endpoint with this name is reset (USB 2.0, 9.4.5).
    pub fn reset(&mut self, name: &EpName) {
        for hub in self.hubs.iter_mut() {
            hub.hub.reset(name);
        }
        self.below.reset(name);
    }

    /// The microframe with this frame index begins: the translators work for the one that ended, and their transactions are recorded.
    ///
    /// # Errors
    ///
    /// `Memory` where one of them finds no room.
    pub fn begin(&mut self, frindex: u16) -> Result<(), Memory> {
        self.below.forget();
        for hub in self.hubs.iter_mut() {
            hub.work(frindex, &mut self.below);
        }
        self.below.begin_devices(frindex);
        if self.below.is_whole() {
            Ok(())
        } else {
            Err(Memory)
        }
    }

    /// No transaction is told any more.
    pub fn forget(&mut self) {
        self.below.forget();
    }

    /// The transactions below of the microframe that ended last.
    pub fn passed(&self) -> &[Passed] {
        self.below.passed()
    }
}
