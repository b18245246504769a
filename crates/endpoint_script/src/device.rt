ghost use Rattle.std.specs.Prelude.{◌≡◌, ◌≤◌, ◌<◌, length, map, IfOk, IfSome, IsTrue};
ghost use Rattle.std.specs.List.{list_all};
ghost use Rattle.endpoint_script.specs.Items.{is_short};
ghost use Rattle.endpoint_script.specs.Device.{is_scripted, is_scripted_endpoint, opened_endpoint, opening, begun, endpoint_begun, endpoint_asked, place_of_name, answer_of, answered, acked_by, taken_of, acted_of};
ghost use Rattle.endpoint_script.specs.Resets.{device_reset};

use crate::endpoint::Endpoint;
use crate::places::Places;
use dev_control::token;
use script_types::{DeviceText, EpText, Item};
use std::alloc::{AllocError, Global};
use std::marker::Model;
use usb_base::{Ask, DevAddr, EpName, Memory, Reply, Speed};

fn is_short(item: &Item) -> bool
    ensures { result ≡ is_short item.now }
{
    match item {
        Item::Bytes(bytes) => bytes.as_slice().len() <= 1024,
        _ => true,
    }
}

fn are_short(items: &[Item]) -> bool
    ensures { result ≡ list_all is_short items.now }
{
    items.iter().all(|item| is_short(item))
}

fn is_scripted_endpoint(text: &EpText) -> bool
    ensures { result ≡ is_scripted_endpoint text.now }
{
    text.desc.max <= 1024 && are_short(text.items.as_slice())
}

/// Whether no packet of a device is longer than USB allows, 1,024 bytes, as in each text that a script gives.
pub fn is_scripted(text: &DeviceText) -> bool
    ensures { result ≡ is_scripted text.now }
{
    let eps = text.eps.as_slice();
    eps.iter().all(|ep| is_scripted_endpoint(ep))
}

/// The endpoints of these texts, in their order.
fn open_all(alloc: Global, texts: &[EpText]) -> Result<Vec<Endpoint>, AllocError>
    requires { IsTrue (list_all is_scripted_endpoint texts.now) }
    ensures { IfOk result (λ endpoints. endpoints.items ≡ map opened_endpoint texts.now) }
{
    let mut endpoints = Vec::with_capacity(alloc, texts.len())?;
    for text in texts {
        endpoints.push(Endpoint::open(alloc, text)?)?;
    }
    Ok(endpoints)
}

/// A microframe or frame begins at each endpoint.
fn begin_all(endpoints: &mut Vec<Endpoint>)
    ensures { endpoints.new.items ≡ map endpoint_begun endpoints.old.items }
{
    for endpoint in endpoints.iter_mut() {
        endpoint.begin();
    }
}

/// A scripted device, which contracts see as its address, its speed and its endpoints.
#[derive(Drop)]
pub struct Device {
    address: DevAddr,
    speed: Speed,
    endpoints: Vec<Endpoint>,
    places: Places,
}

impl Model for Device {
    ghost use Rattle.endpoint_script.specs.Device.{Device as DeviceContent};
    ghost use Rattle.endpoint_script.specs.Places.{ArePlaces};

    ghost Value = { DeviceContent };

    ghost view = { λ d. record { address = d.address; speed = d.speed; endpoints = d.endpoints.items } };

    ghost invariant = { λ d. ArePlaces d.endpoints.items d.places };
}

impl Device {
    /// The device as its text describes it, before the first ask. Its text is one that the lines of a script can give; `is_scripted`
    /// tests what is needed of that.
    ///
    /// # Errors
    ///
    /// `Memory` where an endpoint, its items or the room of an OUT endpoint find no room.
    pub fn build(alloc: Global, text: &DeviceText) -> Result<Device, Memory>
        requires { IsTrue (is_scripted text.now) }
        ensures { IfOk result (λ d. d ≡ opening text.now) }
    {
        let endpoints = open_all(alloc, text.eps.as_slice())?;
        let places = Places::of(&endpoints);
        Ok(Device {
            address: text.addr,
            speed: text.speed,
            endpoints,
            places,
        })
    }

    /// Its address.
    pub fn address(&self) -> DevAddr
        ensures { result ≡ self.now.address }
    {
        self.address
    }

    /// Its speed.
    pub fn speed(&self) -> Speed
        ensures { result ≡ self.now.speed }
    {
        self.speed
    }

    /// Begins a new microframe of a high-speed device, or a new frame of any other, for the count of isochronous packets; nothing
    /// else changes.
    pub fn begin(&mut self)
        ensures { self.new ≡ begun self.old }
    {
        begin_all(&mut self.endpoints);
    }

    /// Answers a token that reached the device, with the data `out` that were sent with it, at most 1,024 bytes. An ask that is for
    /// no endpoint of the device is answered by silence, and changes nothing.
    pub fn answer(&mut self, ask: &Ask, out: &[u8]) -> Reply
        requires { length out.now ≤ 1024 }
        ensures reply { result ≡ answer_of self.old ask.now out.now }
        ensures after { self.new ≡ answered self.old ask.now out.now }
    {
        let Some(place) = self.place(ask) else {
            return Reply::Silent;
        };
        let speed = self.speed;
        self.endpoints[place].answer(speed, ask, out)
    }

    /// The host's ACK of the data just sent in answer to this ask reached the device.
    pub fn acked(&mut self, ask: &Ask)
        ensures { self.new ≡ acked_by self.old ask.now }
    {
        if let Some(place) = self.place(ask) {
            self.endpoints[place].acked();
        }
    }

    /// The endpoint with this name is reset, as its halt is cleared (USB 2.0, 9.4.5); where the device has none, nothing changes.
    pub fn reset(&mut self, name: &EpName)
        ensures { self.new ≡ device_reset name.now self.old }
    {
        if let Some(place) = self.place_of_name(name) {
            self.endpoints[place].reset();
        }
    }

    /// The bytes that a bulk or interrupt OUT endpoint took, in order; none for any other name.
    pub fn taken(&self, name: &EpName) -> &[u8]
        ensures { result.now ≡ taken_of self.now name.now }
    {
        match self.place_of_name(name) {
            Some(place) => self.endpoints[place].taken(),
            None => &[],
        }
    }

    /// How often a control endpoint acted on a request, up to 4,294,967,295, where it stays; 0 for any other name.
    pub fn acted(&self, name: &EpName) -> u32
        ensures { result ≡ acted_of self.now name.now }
    {
        match self.place_of_name(name) {
            Some(place) => self.endpoints[place].acted(),
            None => 0,
        }
    }

    fn place(&self, ask: &Ask) -> Option<usize>
        ensures place { result ≡ endpoint_asked self.now ask.now }
        ensures within { IfSome result (λ place. place < length self.now.endpoints) }
    {
        if ask.addr.get() != self.address.get() {
            return None;
        }
        self.places.place_for(token(ask.pid), ask.ep)
    }

    fn place_of_name(&self, name: &EpName) -> Option<usize>
        ensures place { result ≡ place_of_name self.now name.now }
        ensures within { IfSome result (λ place. place < length self.now.endpoints) }
    {
        if name.addr.get() != self.address.get() {
            return None;
        }
        self.places.named(name.num, name.way)
    }
}
