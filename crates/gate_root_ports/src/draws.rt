use root_ports::{Plugged, PortEvent};

/// Numbers drawn one after another.
#[derive(Drop)]
pub(crate) struct Draws {
    x: u32,
}

impl Draws {
    /// The draws of a seed.
    pub(crate) fn new(seed: u32) -> Draws {
        Draws { x: seed }
    }

    /// The next number, below 65,536.
    fn draw(&mut self) -> u32 {
        self.x = self.x.wrapping_mul(1_664_525).wrapping_add(1_013_904_223);
        self.x >> 16
    }

    /// True one time in so many.
    fn one_in(&mut self, times: u32) -> bool {
        self.draw().checked_rem(times) == Some(0)
    }

    /// What is declared at a port: mostly a high-speed thing.
    pub(crate) fn thing(&mut self) -> Option<Plugged> {
        match self.draw() % 8 {
            0 => None,
            1 => Some(Plugged::Full),
            2 => Some(Plugged::Low),
            _ => Some(Plugged::High),
        }
    }

    /// A port, also one that isn't there: from 0 to one past the last.
    fn port(&mut self, count: u8) -> u8 {
        (self.draw() % 256) as u8 % count.saturating_add(2)
    }

    /// This bit, one time in so many.
    fn bit(&mut self, bit: u32, times: u32) -> u32 {
        if self.one_in(times) { bit } else { 0 }
    }

    /// A word for PORTSC: mostly with power and with the enable bit, and without the owner bit.
    fn word(&mut self) -> u32 {
        let others = self.draw() & 0xcef9;
        let change = self.bit(1 << 1, 2);
        let disable = self.bit(1 << 2, 8);
        let reset = self.bit(1 << 8, 2);
        let off = self.bit(1 << 12, 16);
        let owner = self.bit(1 << 13, 16);
        others | (change | reset | owner) | (1 << 2 ^ disable) | (1 << 12 ^ off)
    }

    /// A write of PORTSC, mostly while the controller runs.
    fn write(&mut self, count: u8) -> PortEvent {
        let port = self.port(count);
        let word = self.word();
        PortEvent::Write(port, word, !self.one_in(8))
    }

    /// An event: mostly a write.
    pub(crate) fn event(&mut self, count: u8) -> PortEvent {
        match self.draw() % 16 {
            0 => PortEvent::Plug(self.port(count)),
            1 => PortEvent::Unplug(self.port(count)),
            2 => PortEvent::Route(!self.one_in(4)),
            _ => self.write(count),
        }
    }
}
