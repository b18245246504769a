ghost use Rattle.std.specs.Prelude.{◌≡◌};
ghost use Rattle.hub_ports.specs.Ports.{opened_port, changed_port, status_bytes, is_low};

use crate::rows::PortChange;
use usb_base::Speed;

/// A port of a hub: what is attached there, and its status and change bits (USB 2.0, 11.24.2.7). The bits for suspend,
/// over-current and a reset in progress stay 0, and so do their change bits and that of enable.
#[derive(Clone, Copy, Debug, PartialEq, Eq)]
pub struct Port {
    /// The speed of the device that is attached there.
    pub attached: Option<Speed>,
    /// PORT_POWER.
    pub power: bool,
    /// PORT_CONNECTION.
    pub connection: bool,
    /// PORT_ENABLE.
    pub enable: bool,
    /// C_PORT_CONNECTION.
    pub connection_changed: bool,
    /// C_PORT_RESET.
    pub reset_changed: bool,
}

impl Port {
    /// A port as a hub opens it: with power, and connected and enabled where a device is attached.
    pub fn opened(attached: Option<Speed>) -> Port
        ensures { result ≡ opened_port attached }
    {
        Port {
            attached,
            power: true,
            connection: attached.is_some(),
            enable: attached.is_some(),
            connection_changed: false,
            reset_changed: false,
        }
    }

    /// The port after a change of it.
    pub fn changed(self, change: PortChange) -> Port
        ensures { result ≡ changed_port change self }
    {
        match change {
            PortChange::PowerOn => self.powered(),
            PortChange::Reset => self.reset(),
            PortChange::Disable => self.disabled(),
            PortChange::PowerOff => Port {
                power: false,
                connection: false,
                enable: false,
                connection_changed: false,
                reset_changed: false,
                ..self
            },
            PortChange::ForgetConnection => Port {
                connection_changed: false,
                ..self
            },
            PortChange::ForgetEnable => self,
            PortChange::ForgetReset => Port {
                reset_changed: false,
                ..self
            },
        }
    }

    fn disabled(self) -> Port
        ensures { result ≡ changed_port PortChange.Disable self }
    {
        let mut port = self;
        port.enable = false;
        port
    }

    fn powered(self) -> Port
        ensures { result ≡ changed_port PortChange.PowerOn self }
    {
        if self.power {
            return self;
        }
        if self.attached.is_none() {
            return Port {
                power: true,
                ..self
            };
        }
        Port {
            power: true,
            connection: true,
            connection_changed: true,
            ..self
        }
    }

    fn reset(self) -> Port
        ensures { result ≡ changed_port PortChange.Reset self }
    {
        if self.power && self.connection {
            return Port {
                enable: true,
                reset_changed: true,
                ..self
            };
        }
        self
    }

    fn is_low(&self) -> bool
        ensures { result ≡ is_low self.now }
    {
        match self.attached {
            Some(Speed::Low) => self.connection,
            _ => false,
        }
    }

    /// The four bytes of its status: 16 status bits, then 16 change bits, the low byte first.
    pub fn status(&self) -> [u8; 4]
        ensures { result ≡ status_bytes self.now }
    {
        [
            self.connection as u8 + 2 * self.enable as u8,
            self.power as u8 + 2 * self.is_low() as u8,
            self.connection_changed as u8 + 16 * self.reset_changed as u8,
            0,
        ]
    }
}
