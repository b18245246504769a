ghost use Rattle.std.specs.Prelude.{◌≡◌, ℕ, true};
ghost use Rattle.op_registers.specs.Table.{port_register_at, register_at, has_register};

/// An operational register, by its name in EHCI 1.0 section 2.3.
#[derive(Clone, Copy, PartialEq, Eq, Debug)]
pub enum Register {
    /// USBCMD.
    Command,
    /// USBSTS.
    Status,
    /// USBINTR.
    InterruptEnable,
    /// FRINDEX.
    FrameIndex,
    /// CTRLDSSEGMENT.
    Segment,
    /// PERIODICLISTBASE.
    PeriodicListBase,
    /// ASYNCLISTADDR.
    AsyncListAddress,
    /// CONFIGFLAG.
    ConfigureFlag,
    /// PORTSC of this root port, from 1.
    PortStatus(u8),
}

impl Register {
    fn port_at(off: u32, ports: u8) -> Option<Register>
        ensures { result ≡ port_register_at ports off }
    {
        if 0x44 <= off && (off < 0x44 + 4 * ports as u32 && off % 4 == 0) {
            return Some(Register::PortStatus((off / 4 - 0x10) as u8));
        }
        None
    }

    /// The register at this offset, in bytes, of a controller with so many root ports; None where none is.
    pub fn at(off: u32, ports: u8) -> Option<Register>
        ensures { result ≡ register_at ports off }
    {
        match off {
            0x00 => Some(Register::Command),
            0x04 => Some(Register::Status),
            0x08 => Some(Register::InterruptEnable),
            0x0c => Some(Register::FrameIndex),
            0x10 => Some(Register::Segment),
            0x14 => Some(Register::PeriodicListBase),
            0x18 => Some(Register::AsyncListAddress),
            0x40 => Some(Register::ConfigureFlag),
            _ => Register::port_at(off, ports),
        }
    }

    /// Where the register stands, in bytes from the first.
    pub fn offset(self) -> u32
        ensures { (ports : ℕ) → has_register ports self ≡ true → register_at ports result ≡ Some self }
    {
        match self {
            Register::Command => 0x00,
            Register::Status => 0x04,
            Register::InterruptEnable => 0x08,
            Register::FrameIndex => 0x0c,
            Register::Segment => 0x10,
            Register::PeriodicListBase => 0x14,
            Register::AsyncListAddress => 0x18,
            Register::ConfigureFlag => 0x40,
            Register::PortStatus(port) => 0x40 + 4 * port as u32,
        }
    }
}
