ghost use Rattle.std.specs.Prelude.{◌≡◌, ◌≤◌, ◌-◌, ℕ, true, false, length, map, reverse, slice_set, Some};
ghost use Rattle.root_ports.specs.declared.port.Port.{Port as OnePort};
ghost use Rattle.root_ports.specs.declared.port.Plugged.TheVariants.{High};
ghost use Rattle.root_ports.specs.Ready.{is_ready};
ghost use Rattle.root_ports.specs.Ports.{reopened, bit, after_owner, port_at, ports_after, opened, played, is_enabled, port_status, has_change, has_new_change};

use crate::port::{Plugged, Port};
use crate::port_event::PortEvent;
use arrayvec::ArrayVec;
use std::marker::Model;

/// The root ports of a controller, 1 to 15, numbered from 1. A contract sees the list of them.
#[derive(Debug, Drop)]
pub struct RootPorts {
    ports: ArrayVec<Port, 15>,
}

impl Model for RootPorts {
    ghost use Rattle.std.specs.Prelude.{List, ◌≤◌, length};
    ghost use Rattle.root_ports.specs.declared.port.Port.{Port as OnePort};

    ghost Value = { List OnePort };

    ghost view = { λ r. r.ports.items };

    ghost invariant = { λ r. (1 ≤ length r.ports.items) × (length r.ports.items ≤ 15) };
}

/// Writes the owner bit of a port.
fn route(port: &mut Port, owner: bool)
    ensures { port.new ≡ after_owner owner port.old }
{
    *port = port.after_owner(owner);
}

/// Opens a port anew.
fn reopen(port: &mut Port)
    ensures { port.new ≡ reopened port.old }
{
    *port = port.reopened();
}

/// Writes the owner bit of every port.
fn route_all(ports: &mut [Port], owner: bool)
    ensures { ports.new ≡ map (after_owner owner) ports.old }
{
    for port in ports.iter_mut() {
        route(port, owner);
    }
}

/// Opens every port anew.
fn reopen_all(ports: &mut [Port])
    ensures { ports.new ≡ map reopened ports.old }
{
    for port in ports.iter_mut() {
        reopen(port);
    }
}

/// Whether some connection change of `after` is 1 that was 0 in `before`, port by port.
fn new_change(before: &[Port], after: &[Port]) -> bool
    requires { length before.now ≡ length after.now }
    ensures { result ≡ has_new_change before.now after.now }
{
    before.iter().zip(after.iter()).any(|(old, new)| !old.connection_changed
        && new.connection_changed)
}

impl RootPorts {
    /// The first `n` ports, 1 to 15, as they open, with the thing that is declared at each, plugged in.
    pub fn new(things: [Option<Plugged>; 15], n: u8) -> RootPorts
        requires least { 1 ≤ n }
        requires most { n ≤ 15 }
        ensures { result ≡ opened things n }
    {
        let mut ports = ArrayVec::new();
        for thing in &things[..n as usize] {
            ports.push(Port::opened(*thing, thing.is_some()));
        }
        RootPorts { ports }
    }

    /// The ports after HCReset: each opens anew with what is plugged in now.
    pub fn reopen(&mut self)
        ensures { self.new ≡ map reopened self.old }
    {
        reopen_all(self.ports.as_mut_slice());
    }

    /// Makes an event.
    pub fn event(&mut self, e: &PortEvent)
        ensures { self.new ≡ ports_after e.now self.old }
    {
        match e {
            PortEvent::Plug(port) => self.plug(*port),
            PortEvent::Unplug(port) => self.unplug(*port),
            PortEvent::Write(port, word, run) => self.write(*port, *word, *run),
            PortEvent::Route(on) => route_all(self.ports.as_mut_slice(), !*on),
        }
    }

    /// Makes an event, and tells whether some connection change went from 0 to 1: then Port Change Detect of USBSTS is raised (EHCI 1.0 section 2.3.2).
    pub fn event_raises(&mut self, e: &PortEvent) -> bool
        ensures ports { self.new ≡ ports_after e.now self.old }
        ensures raised { result ≡ has_new_change self.old self.new }
    {
        let mut before: ArrayVec<Port, 15> = ArrayVec::new();
        let _fits = before.try_extend_from_slice(self.ports.as_slice());
        self.event(e);
        new_change(before.as_slice(), self.ports.as_slice())
    }

    /// PORTSC of a port, as the driver reads it; 0 for a port that isn't there.
    pub fn read(&self, port: u8) -> u32
        ensures { result ≡ port_status port self.now }
    {
        match self.port(port) {
            Some(port) => port.word(),
            None => 0,
        }
    }

    /// The enable bit of a port; false for one that isn't there.
    pub fn enabled(&self, port: u8) -> bool
        ensures { result ≡ is_enabled port self.now }
    {
        match self.port(port) {
            Some(port) => port.enable,
            None => false,
        }
    }

    /// Whether some connection change is 1.
    pub fn changed(&self) -> bool
        ensures { result ≡ has_change self.now }
    {
        self.ports
            .as_slice()
            .iter()
            .any(|port| port.connection_changed)
    }

    /// The number of ports.
    pub fn count(&self) -> u8
        ensures number { result ≡ length self.now }
        ensures least { 1 ≤ result }
        ensures most { result ≤ 15 }
    {
        self.ports.len() as u8
    }

    fn port(&self, port: u8) -> Option<Port>
        ensures { result ≡ port_at port self.now }
    {
        if port == 0 {
            return None;
        }
        self.ports.as_slice().get(port as usize - 1).copied()
    }

    fn set(&mut self, port: u8, value: Port)
        requires least { 1 ≤ port }
        requires most { port ≤ length self.old }
        ensures { self.new ≡ slice_set self.old (port - 1) value }
    {
        self.ports.as_mut_slice()[port as usize - 1] = value;
    }

    fn plug(&mut self, port: u8)
        ensures { self.new ≡ ports_after (PortEvent.Plug port) self.old }
    {
        if let Some(before) = self.port(port) {
            self.set(port, before.after_plug());
        }
    }

    fn unplug(&mut self, port: u8)
        ensures { self.new ≡ ports_after (PortEvent.Unplug port) self.old }
    {
        if let Some(before) = self.port(port) {
            self.set(port, before.after_unplug());
        }
    }

    fn write(&mut self, port: u8, word: u32, run: bool)
        ensures { self.new ≡ ports_after (PortEvent.Write port word run) self.old }
    {
        if let Some(before) = self.port(port) {
            self.set(port, before.after_write(word, run));
        }
    }
}

/// The ports after a list of events, from the opening. A port is enabled exactly where it was made ready and not unmade since (specs/Ready.antt), only a high-speed
/// thing ever is, and a port that was given to a companion controller reads as neither connected nor enabled.
#[tactic(auto, using(crate::proofs::Readings::only_high))]
pub fn play(things: [Option<Plugged>; 15], n: u8, events: &[PortEvent]) -> RootPorts
    requires least { 1 ≤ n }
    requires most { n ≤ 15 }
    ensures ports { result ≡ played (opened things n) events.now }
    ensures ready { (port : ℕ) → is_enabled port result ≡ is_ready (opened things n) port (reverse events.now) }
    ensures high { (port : ℕ) (p : OnePort) → port_at port result ≡ Some p → p.enable ≡ true → p.thing ≡ Some High }
    ensures given { (port : ℕ) → bit (port_status port result) 13 ≡ true → (bit (port_status port result) 0 ≡ false) × (bit (port_status port result) 2 ≡ false) }
{
    let mut ports = RootPorts::new(things, n);
    for e in events {
        ports.event(e);
    }
    ports
}
