ghost use Rattle.std.specs.Prelude.{◌≡◌, ◌≤◌, length, map, IfOk};
ghost use Rattle.hub_ports.specs.Ports.{opened_port, is_enabled, ports_changed, ports_after, reply_of, port_at};
ghost use Rattle.hub_ports.specs.Requests.{request_of as request_of_setup};

use crate::port::Port;
use crate::requests::request_of;
use crate::rows::{HubReply, HubRequest, PortChange};
use std::alloc::Global;
use std::marker::Model;
use usb_base::{Memory, Speed};

/// The ports of a hub, numbered from 1. A contract sees the list of them.
#[derive(Debug, Drop)]
pub struct Ports {
    ports: Vec<Port>,
}

impl Model for Ports {
    ghost use Rattle.std.specs.Prelude.{List, ◌≤◌, length};
    ghost use Rattle.hub_ports.specs.declared.port.Port.{Port as OnePort};

    ghost Value = { List OnePort };

    ghost view = { λ p. p.ports.items };

    ghost invariant = { λ p. length p.ports.items ≤ 255 };
}

impl Ports {
    /// The ports of a hub at which these devices are attached, at most 255 ports.
    pub fn build(alloc: Global, attached: &[Option<Speed>]) -> Result<Ports, Memory>
        requires { length attached.now ≤ 255 }
        ensures { IfOk result (λ p. p ≡ map opened_port attached.now) }
    {
        let mut ports = Vec::with_capacity(alloc, attached.len())?;
        for speed in attached {
            ports.push_reserved(Port::opened(*speed));
        }
        Ok(Ports { ports })
    }

    /// The enable bit of a port; false for one that the hub doesn't have.
    pub fn enabled(&self, port: u8) -> bool
        ensures { result ≡ is_enabled port self.now }
    {
        match self.port(port as u16) {
            Some(port) => port.enable,
            None => false,
        }
    }

    /// The request of eight setup bytes, where the hub has a translator for each port (`multi`) or one for all; `None` exactly
    /// where the hub knows none such, and stalls.
    pub fn request(&self, multi: bool, setup: &[u8; 8]) -> Option<HubRequest>
        ensures { result ≡ request_of_setup multi (length self.now) setup.now }
    {
        request_of(multi, self.ports.len() as u16, setup)
    }

    /// What a request answers.
    pub fn reply(&self, request: &HubRequest) -> HubReply
        ensures { result ≡ reply_of request.now self.now }
    {
        match request {
            HubRequest::HubStatus => HubReply::Bytes([0; 4]),
            HubRequest::PortStatus(port) => match self.port(*port) {
                Some(port) => HubReply::Bytes(port.status()),
                None => HubReply::Stall,
            },
            _ => HubReply::Done,
        }
    }

    /// Makes what a request changes of the ports.
    pub fn make(&mut self, request: &HubRequest)
        ensures { self.new ≡ ports_after request.now self.old }
    {
        if let HubRequest::ChangePort(port, change) = request {
            self.change(*port, *change);
        }
    }

    fn port(&self, port: u16) -> Option<Port>
        ensures { result ≡ port_at port self.now }
    {
        if port == 0 {
            return None;
        }
        self.ports.get(port as usize - 1).copied()
    }

    fn change(&mut self, port: u16, change: PortChange)
        ensures { self.new ≡ ports_changed port change self.old }
    {
        let Some(before) = self.port(port) else {
            return;
        };
        self.ports[port as usize - 1] = before.changed(change);
    }
}
