ghost use Rattle.std.specs.Prelude.{◌≡◌, ◌&&◌};
ghost use Rattle.root_ports.specs.Ports.{opened_port, reopened, appeared, disappeared, stopped, followed, after_plug, after_unplug, after_bit_1, after_bit_2, powered, unpowered, after_bit_12, given, taken_back, after_owner, is_high, reset_begun, reset_ended, after_bit_8, after_port_write, line_of, line_status, port_word};

/// What may be plugged in at a root port, by its speed. A full-speed or low-speed thing can be served only by a companion controller.
#[derive(Clone, Copy, Debug, PartialEq, Eq)]
pub enum Plugged {
    High,
    Full,
    Low,
}

/// A root port: what is declared there, and the bits of PORTSC (EHCI 1.0 section 2.3.9).
#[derive(Clone, Copy, Debug, Default, PartialEq, Eq)]
pub struct Port {
    /// What can be plugged in at the port.
    pub thing: Option<Plugged>,
    /// Whether it is plugged in.
    pub plugged: bool,
    /// Port Power, bit 12.
    pub power: bool,
    /// Port Owner, bit 13: a companion controller has the port.
    pub owner: bool,
    /// Current Connect Status, bit 0.
    pub connection: bool,
    /// Connect Status Change, bit 1.
    pub connection_changed: bool,
    /// Port Enabled, bit 2.
    pub enable: bool,
    /// Port Reset, bit 8.
    pub reset: bool,
}

impl Port {
    /// A port as it opens: with power, owned by this controller, and telling of what is plugged in.
    pub fn opened(thing: Option<Plugged>, plugged: bool) -> Port
        ensures { result ≡ opened_port thing plugged }
    {
        Port {
            thing,
            plugged,
            power: true,
            owner: false,
            connection: plugged,
            connection_changed: plugged,
            enable: false,
            reset: false,
        }
    }

    /// The port after HCReset: it opens anew with what is plugged in now.
    pub fn reopened(self) -> Port
        ensures { result ≡ reopened self }
    {
        Port::opened(self.thing, self.plugged)
    }

    fn appeared(self) -> Port
        ensures { result ≡ appeared self }
    {
        if self.plugged {
            return Port {
                connection: true,
                connection_changed: true,
                ..self
            };
        }
        self
    }

    fn disappeared(self) -> Port
        ensures { result ≡ disappeared self }
    {
        if self.connection {
            return Port {
                connection: false,
                connection_changed: true,
                ..self
            };
        }
        self
    }

    fn stopped(self) -> Port
        ensures { result ≡ stopped self }
    {
        Port {
            enable: false,
            reset: false,
            ..self
        }
    }

    fn followed(self) -> Port
        ensures { result ≡ followed self }
    {
        if self.power && !self.owner {
            return Port {
                connection: self.plugged,
                connection_changed: true,
                ..self
            };
        }
        self
    }

    /// The port after what is declared there was plugged in.
    pub fn after_plug(self) -> Port
        ensures { result ≡ after_plug self }
    {
        if self.thing.is_some() && !self.plugged {
            let port = Port {
                plugged: true,
                ..self
            };
            return port.stopped().followed();
        }
        self
    }

    /// The port after that was unplugged.
    pub fn after_unplug(self) -> Port
        ensures { result ≡ after_unplug self }
    {
        if self.plugged {
            let port = Port {
                plugged: false,
                ..self
            };
            return port.stopped().followed();
        }
        self
    }

    fn after_bit_1(self, word: u32) -> Port
        ensures { result ≡ after_bit_1 word self }
    {
        if (word >> 1) & 1 == 1 {
            return Port {
                connection_changed: false,
                ..self
            };
        }
        self
    }

    fn after_bit_2(self, word: u32) -> Port
        ensures { result ≡ after_bit_2 word self }
    {
        if (word >> 2) & 1 == 1 {
            return self;
        }
        Port {
            enable: false,
            ..self
        }
    }

    fn powered(self) -> Port
        ensures { result ≡ powered self }
    {
        if self.power {
            return self;
        }
        let port = Port {
            power: true,
            ..self
        };
        if self.owner {
            return port;
        }
        port.appeared()
    }

    fn unpowered(self) -> Port
        ensures { result ≡ unpowered self }
    {
        if self.power {
            return Port {
                power: false,
                connection: false,
                connection_changed: false,
                enable: false,
                reset: false,
                ..self
            };
        }
        self
    }

    fn after_bit_12(self, word: u32) -> Port
        ensures { result ≡ after_bit_12 word self }
    {
        if (word >> 12) & 1 == 1 {
            return self.powered();
        }
        self.unpowered()
    }

    fn given(self) -> Port
        ensures { result ≡ given self }
    {
        if self.owner {
            return self;
        }
        let port = Port {
            owner: true,
            ..self
        };
        port.stopped().disappeared()
    }

    fn taken_back(self) -> Port
        ensures { result ≡ taken_back self }
    {
        if !self.owner {
            return self;
        }
        let port = Port {
            owner: false,
            ..self
        };
        if self.power {
            return port.appeared();
        }
        port
    }

    /// The port after its owner bit was written.
    pub fn after_owner(self, owner: bool) -> Port
        ensures { result ≡ after_owner owner self }
    {
        if owner {
            return self.given();
        }
        self.taken_back()
    }

    fn reset_begun(self, run: bool) -> Port
        ensures { result ≡ reset_begun run self }
    {
        if !self.reset && (self.connection && run) {
            return Port {
                reset: true,
                enable: false,
                ..self
            };
        }
        self
    }

    fn enables(&self) -> bool
        ensures { result ≡ (self.now.connection && is_high self.now.thing) }
    {
        match self.thing {
            Some(Plugged::High) => self.connection,
            _ => false,
        }
    }

    fn reset_ended(self) -> Port
        ensures { result ≡ reset_ended self }
    {
        if self.reset {
            let enable = self.enables();
            return Port {
                reset: false,
                enable,
                ..self
            };
        }
        self
    }

    fn after_bit_8(self, word: u32, run: bool) -> Port
        ensures { result ≡ after_bit_8 word run self }
    {
        if (word >> 8) & 1 == 1 {
            return self.reset_begun(run);
        }
        self.reset_ended()
    }

    /// The port after the driver wrote a word to its PORTSC; `run` says whether the controller runs.
    pub fn after_write(self, word: u32, run: bool) -> Port
        ensures { result ≡ after_port_write word run self }
    {
        self.after_bit_1(word)
            .after_bit_2(word)
            .after_bit_12(word)
            .after_owner((word >> 13) & 1 == 1)
            .after_bit_8(word, run)
    }

    fn line(&self) -> u32
        ensures { result ≡ line_of self.now.thing }
    {
        match self.thing {
            Some(Plugged::Low) => 1,
            Some(_) => 2,
            None => 0,
        }
    }

    fn line_status(&self) -> u32
        ensures { result ≡ line_status self.now }
    {
        if self.connection && (!self.enable && !self.reset) {
            return self.line();
        }
        0
    }

    /// PORTSC, as the driver reads it.
    pub fn word(&self) -> u32
        ensures { result ≡ port_word self.now }
    {
        self.connection as u32
            | (self.connection_changed as u32) << 1
            | (self.enable as u32) << 2
            | (self.reset as u32) << 8
            | self.line_status() << 10
            | (self.power as u32) << 12
            | (self.owner as u32) << 13
    }
}
