use crate::model_port::ModelPort;
use root_ports::{Plugged, PortEvent};

/// The ports as the model has them; only the first `count` are there.
#[derive(Drop)]
pub(crate) struct Model {
    ports: [ModelPort; 15],
    count: usize,
}

impl Model {
    /// The ports as they open.
    pub(crate) fn opened(things: &[Option<Plugged>; 15], count: u8) -> Model {
        let mut ports = [ModelPort::default(); 15];
        for (port, thing) in ports.iter_mut().zip(things.iter()) {
            *port = ModelPort::opened(*thing, thing.is_some());
        }
        Model {
            ports,
            count: count as usize,
        }
    }

    /// The port of this number.
    pub(crate) fn port(&self, port: u8) -> Option<ModelPort> {
        if port == 0 || port as usize > self.count {
            return None;
        }
        self.ports.get(port as usize - 1).copied()
    }

    fn set(&mut self, port: u8, value: ModelPort) {
        if let Some(place) = self.ports.get_mut((port as usize).saturating_sub(1)) {
            *place = value;
        }
    }

    fn route(&mut self, on: bool) {
        for port in self.ports.iter_mut() {
            port.set_owner(!on);
        }
    }

    /// An event of one port.
    fn event_at(&mut self, at: u8, event: &PortEvent) {
        let Some(mut port) = self.port(at) else {
            return;
        };
        match *event {
            PortEvent::Plug(_) => port.plug(true),
            PortEvent::Unplug(_) => port.plug(false),
            PortEvent::Write(_, word, run) => port.write(word, run),
            PortEvent::Route(_) => {}
        }
        self.set(at, port);
    }

    /// Makes an event.
    pub(crate) fn event(&mut self, event: &PortEvent) {
        match *event {
            PortEvent::Plug(at) | PortEvent::Unplug(at) | PortEvent::Write(at, _, _) =>
                self.event_at(at, event),
            PortEvent::Route(on) => self.route(on),
        }
    }

    /// HCReset.
    pub(crate) fn reopen(&mut self) {
        for port in self.ports.iter_mut() {
            *port = ModelPort::opened(port.thing, port.plugged);
        }
    }

    /// Bit k - 1 for each port k whose change bit is 1.
    pub(crate) fn changes(&self) -> u32 {
        let mut changes = 0;
        for port in 1..=15u8 {
            if self.port(port).is_some_and(|it| it.has_change()) {
                changes |= 1u32 << (port as u32 - 1);
            }
        }
        changes
    }
}
