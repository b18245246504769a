use root_ports::Plugged;

/// A port as the model has it. It is connected where something is plugged in, it has power and no other owner; it is enabled where it
/// is ready.
#[derive(Clone, Copy, Default)]
pub(crate) struct ModelPort {
    pub(crate) thing: Option<Plugged>,
    pub(crate) plugged: bool,
    power: bool,
    owner: bool,
    changed: bool,
    in_reset: bool,
    /// It was made ready and not unmade since.
    pub(crate) ready: bool,
}

fn is_set(word: u32, bit: u32) -> bool {
    word & bit != 0
}

impl ModelPort {
    /// A port with power; what is declared there is plugged in or not.
    pub(crate) fn opened(thing: Option<Plugged>, plugged: bool) -> ModelPort {
        ModelPort {
            thing,
            plugged,
            power: true,
            changed: plugged,
            ..ModelPort::default()
        }
    }

    fn connected(&self) -> bool {
        self.plugged && self.power && !self.owner
    }

    /// The change bit, where the connection is another than before.
    fn note(&mut self, before: bool) {
        if self.connected() != before {
            self.changed = true;
        }
    }

    /// What is declared there is plugged in or unplugged.
    pub(crate) fn plug(&mut self, plugged: bool) {
        if self.thing.is_none() || self.plugged == plugged {
            return;
        }
        let before = self.connected();
        self.plugged = plugged;
        self.in_reset = false;
        self.ready = false;
        self.note(before);
    }

    fn set_power(&mut self, power: bool) {
        let before = self.connected();
        self.power = power;
        if power {
            self.note(before);
        } else {
            self.changed = false;
            self.in_reset = false;
        }
    }

    /// The port is given to a companion controller, or taken back.
    pub(crate) fn set_owner(&mut self, owner: bool) {
        let before = self.connected();
        self.owner = owner;
        if owner {
            self.in_reset = false;
            self.ready = false;
        }
        self.note(before);
    }

    fn set_reset(&mut self, reset: bool, run: bool) {
        if !reset {
            self.in_reset = false;
        } else if run && self.connected() {
            self.in_reset = true;
        }
    }

    /// It is ready behind a write where the write ended a reset of a high-speed thing that it can serve, or where it was ready and the
    /// write neither disables nor resets it nor takes its power.
    fn is_ready_after(&self, word: u32, was_in_reset: bool) -> bool {
        if was_in_reset && !self.in_reset && self.connected() {
            return self.thing == Some(Plugged::High);
        }
        self.ready && is_set(word, 4) && self.power && !self.in_reset
    }

    /// A write of PORTSC.
    pub(crate) fn write(&mut self, word: u32, run: bool) {
        let was_in_reset = self.in_reset;
        if is_set(word, 2) {
            self.changed = false;
        }
        self.set_power(is_set(word, 0x1000));
        self.set_owner(is_set(word, 0x2000));
        self.set_reset(is_set(word, 0x100), run);
        self.ready = self.is_ready_after(word, was_in_reset);
    }

    fn line(&self) -> u32 {
        if !self.connected() || self.ready || self.in_reset {
            return 0;
        }
        if self.thing == Some(Plugged::Low) {
            0x400
        } else {
            0x800
        }
    }

    /// What PORTSC reads.
    pub(crate) fn word(&self) -> u32 {
        let mut word = self.line();
        let bits = [
            (1, self.connected()),
            (2, self.changed),
            (4, self.ready),
            (0x100, self.in_reset),
            (0x1000, self.power),
            (0x2000, self.owner),
        ];
        for (bit, one) in bits {
            if one {
                word |= bit;
            }
        }
        word
    }

    pub(crate) fn has_change(&self) -> bool {
        self.changed
    }
}
