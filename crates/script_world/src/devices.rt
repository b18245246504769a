//! A device that is being declared.
ghost use Rattle.std.specs.Prelude.{◌≡◌, ℕ, ◌<◌, ◌≤◌, ◌++◌, ◌∷◌, IfOk, [], length, ◌==◌};
ghost use Rattle.std.specs.List.{position};
ghost use Rattle.std.specs.Prelude.{find};
ghost use Rattle.std.specs.Option.{option_map};
ghost use Rattle.script_world.specs.Draft.{is_named, ep_of, epochs_after, change, device_text};
ghost use Rattle.script_world.specs.Rows.{answered, roomier, stuffed, device, with_ep};

use crate::bytes::push;
use crate::endpoints::EpDraft;
use script_forms::{Answer, EpLine, Name};
use script_types::{DeviceText, EpText};
use std::alloc::Global;
use std::marker::Model;
use usb_base::{DevAddr, EpDesc, EpName, EpNum, ListOf, Memory, Speed};

/// A device, where it is attached, and its endpoints so far.
#[derive(Drop)]
pub struct DeviceDraft {
    addr: DevAddr,
    speed: Speed,
    hub: Option<DevAddr>,
    port: u8,
    tt: u8,
    eps: Vec<EpDraft>,
}

impl Model for DeviceDraft {
    ghost use Rattle.script_world.specs.Draft.{Placed};

    ghost Value = { Placed };

    ghost view = { λ d. record { addr = d.addr; speed = d.speed; hub = d.hub; port = d.port; tt = d.tt; eps = d.eps.items } };
}

impl DeviceDraft {
    /// A device without endpoints.
    pub fn new(
        alloc: Global,
        addr: DevAddr,
        speed: Speed,
        hub: Option<DevAddr>,
        port: u8,
        tt: u8,
    ) -> DeviceDraft
        ensures { result ≡ device addr speed hub port tt }
    {
        DeviceDraft {
            addr,
            speed,
            hub,
            port,
            tt,
            eps: Vec::new(alloc),
        }
    }

    /// Its address.
    pub fn addr(&self) -> DevAddr
        ensures { result ≡ self.now.addr }
    {
        self.addr
    }

    /// Its speed.
    pub fn speed(&self) -> Speed
        ensures { result ≡ self.now.speed }
    {
        self.speed
    }

    /// The place of an endpoint.
    fn place_of(&self, name: &Name) -> Option<usize>
        ensures { result ≡ position (is_named name.now) self.now.eps }
    {
        self.eps.iter().position(|ep| ep.is_named(name))
    }

    /// What the host knows of an endpoint.
    #[tactic(auto, using(crate::proofs::Places::find_at, crate::proofs::Places::find_nowhere))]
    pub fn ep(&self, name: &Name) -> Option<EpDesc>
        ensures { result ≡ ep_of self.now.eps name.now }
    {
        let Some(place) = self.place_of(name) else {
            return None;
        };
        Some(self.eps[place].desc())
    }

    /// How many epochs an endpoint has behind its first.
    #[tactic(auto, using(crate::proofs::Places::find_at, crate::proofs::Places::find_nowhere))]
    pub fn epochs_after(&self, name: &Name) -> Option<usize>
        ensures { result ≡ option_map epochs_after (find (is_named name.now) self.now.eps) }
    {
        let Some(place) = self.place_of(name) else {
            return None;
        };
        Some(self.eps[place].epochs_after())
    }

    /// Adds an endpoint.
    pub fn add(&mut self, alloc: Global, line: &EpLine) -> Result<(), Memory>
        requires num { line.now.name.num ≤ 15 }
        requires some { 1 ≤ line.now.max }
        requires max { line.now.max ≤ 1024 }
        requires period { line.now.period ≤ 8192 }
        requires multi { line.now.multi ≤ 3 }
        ensures { IfOk result (λ _. self.new ≡ with_ep line.now self.old) }
    {
        let Some(num) = EpNum::new(line.name.num as u8) else {
            return Ok(());
        };
        let desc = EpDesc {
            name: EpName {
                addr: self.addr,
                num,
                way: line.name.way,
            },
            speed: self.speed,
            kind: line.kind,
            max: line.max as u16,
            period: line.period as u16,
            multi: line.multi as u8,
            hub: self.hub,
            port: self.port,
            tt: self.tt,
        };
        push(&mut self.eps, EpDraft::new(alloc, desc))
    }

    /// Adds what an endpoint does next.
    #[tactic(auto, using(crate::proofs::Places::change_at, crate::proofs::Places::change_nowhere))]
    pub fn answer(&mut self, alloc: Global, name: &Name, answer: Answer) -> Result<(), Memory>
        ensures { IfOk result (λ _. self.new ≡ record self.old { eps = change (is_named name.now) (answered answer) self.old.eps }) }
    {
        let Some(place) = self.place_of(name) else {
            return Ok(());
        };
        let ep = &mut self.eps[place];
        ep.answer(alloc, answer)
    }

    /// Gives an endpoint room for so many bytes more.
    #[tactic(auto, using(crate::proofs::Places::change_at, crate::proofs::Places::change_nowhere))]
    pub fn make_room(&mut self, name: &Name, len: u64)
        ensures { self.new ≡ record self.old { eps = change (is_named name.now) (roomier len) self.old.eps } }
    {
        let Some(place) = self.place_of(name) else {
            return;
        };
        let ep = &mut self.eps[place];
        ep.make_room(len);
    }

    /// Stuffed bits make the packets of an endpoint longer.
    #[tactic(auto, using(crate::proofs::Places::change_at, crate::proofs::Places::change_nowhere))]
    pub fn set_stuff(&mut self, name: &Name, p: u8)
        ensures { self.new ≡ record self.old { eps = change (is_named name.now) (stuffed p) self.old.eps } }
    {
        let Some(place) = self.place_of(name) else {
            return;
        };
        let ep = &mut self.eps[place];
        ep.set_stuff(p);
    }

    /// Its text.
    pub fn into_text(self, alloc: Global) -> Result<DeviceText, Memory>
        ensures { IfOk result (λ d. d ≡ device_text self) }
    {
        let mut eps: Vec<EpText> = Vec::with_capacity(alloc, self.eps.len())?;
        for ep in self.eps {
            push(&mut eps, ep.into_text())?;
        }
        Ok(DeviceText {
            addr: self.addr,
            speed: self.speed,
            eps: ListOf::of(eps),
        })
    }
}
