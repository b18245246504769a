ghost use Rattle.std.specs.Prelude.{◌≡◌, ◌+◌, ◌<◌, ◌≤◌, ◌/◌, ◌%◌, ◌^◌, ◌==◌, ◌&&◌, not, if◌then◌else◌, true, false, Some, is_some, option_copied, option_map, unwrap_or, take};
ghost use Rattle.root_ports.specs.Ports.{ports_after, has_new_change};
ghost use Rattle.op_registers.specs.RegisterFile.{reset_file, reset_of, levels_of};
ghost use Rattle.op_registers.specs.Table.{Write, port_count, register_at, rows, one_if, bits_of, taken, port_value, after_port_event, word_of_rows, word_of, word_at, after_write_to, after_write};
ghost use Rattle.op_registers.specs.Events.{after_raise, after_begin, after_advance, after_reclamation, after_fault, after_plug, after_unplug};

use crate::command::Command;
use crate::register::Register;
use crate::status::Status;
use bitflags::Flags;
use root_ports::{PortEvent, RootPorts};
use std::marker::Model;

/// PORTSC of the one port where there are no `RootPorts`: powered, connected and enabled, for ever.
const PORT_STATUS: u32 = 0x0000_1005;

/// The operational registers (EHCI 1.0 section 2.3). The driver reads and writes them by `driver_read` and `driver_write`; every other call that changes them is the controller's.
#[derive(Debug, Drop)]
pub struct Registers {
    command: Command,
    list_size: u8,
    threshold: u8,
    status: Status,
    interrupt_enable: Status,
    frame_index: u16,
    periodic_list_base: u32,
    async_list_address: u32,
    configured: bool,
    ports: Option<RootPorts>,
}

impl Model for Registers {
    ghost use Rattle.std.specs.Prelude.{◌<◌, ◌^◌};
    ghost use Rattle.op_registers.specs.RegisterFile.{RegisterFile, IsInRange};

    ghost Value = { RegisterFile };

    ghost use Rattle.op_registers.specs.Events.{has};

    ghost invariant = { λ a. IsInRange a.list_size a.interrupt_enable.0 a.frame_index a.periodic_list_base a.async_list_address };

    ghost view = { λ a. record {
      run = has a.command.0 0x01;
      periodic_enable = has a.command.0 0x10;
      async_enable = has a.command.0 0x20;
      doorbell = has a.command.0 0x40;
      list_size = a.list_size;
      threshold = a.threshold;
      interrupt = has a.status.0 0x0001;
      error = has a.status.0 0x0002;
      port_change = has a.status.0 0x0004;
      rollover = has a.status.0 0x0008;
      host_system_error = has a.status.0 0x0010;
      async_advance = has a.status.0 0x0020;
      reclamation = has a.status.0 0x2000;
      interrupt_enable = a.interrupt_enable.0;
      frame_index = a.frame_index;
      periodic_list_base = a.periodic_list_base;
      async_list_address = a.async_list_address;
      configured = a.configured;
      ports = a.ports;
    } };
}

impl Registers {
    /// The registers after a reset: halted, nothing enabled, no status raised, microframe 0 (EHCI 1.0 section 2.3). There is one root port, which never changes.
    pub fn reset() -> Registers
        ensures { result ≡ reset_file }
    {
        Registers::opened(None)
    }

    /// The registers after a reset, with these root ports as they stand.
    pub fn with_ports(ports: RootPorts) -> Registers
        ensures { result ≡ record reset_file { ports = Some ports } }
    {
        Registers::opened(Some(ports))
    }

    fn opened(ports: Option<RootPorts>) -> Registers
        ensures { result ≡ record reset_file { ports = ports } }
    {
        Registers {
            command: Command::empty(),
            list_size: 0,
            threshold: 8,
            status: Status::empty(),
            interrupt_enable: Status::empty(),
            frame_index: 0,
            periodic_list_base: 0,
            async_list_address: 0,
            configured: false,
            ports,
        }
    }

    /// The root ports; None exactly where the registers weren't made by `with_ports`.
    pub fn ports(&self) -> Option<&RootPorts>
        ensures { option_copied result ≡ self.now.ports }
    {
        self.ports.as_ref()
    }

    // The number of root ports.
    fn port_count(&self) -> u8
        ensures { result ≡ port_count self.now }
    {
        match &self.ports {
            Some(ports) => ports.count(),
            None => 1,
        }
    }

    /// Whether Run is set: bit 0 of USBCMD.
    pub fn running(&self) -> bool
        ensures { result ≡ self.now.run }
    {
        self.command.contains(Command::RUN)
    }

    /// Whether the periodic schedule is enabled: bit 4 of USBCMD.
    pub fn periodic_on(&self) -> bool
        ensures { result ≡ self.now.periodic_enable }
    {
        self.command.contains(Command::PERIODIC_ENABLE)
    }

    /// Whether the asynchronous schedule is enabled: bit 5 of USBCMD.
    pub fn async_on(&self) -> bool
        ensures { result ≡ self.now.async_enable }
    {
        self.command.contains(Command::ASYNC_ENABLE)
    }

    /// Whether the doorbell is set: bit 6 of USBCMD.
    pub fn rung(&self) -> bool
        ensures { result ≡ self.now.doorbell }
    {
        self.command.contains(Command::DOORBELL)
    }

    /// Whether Reclamation is set: bit 13 of USBSTS.
    pub fn reclamation(&self) -> bool
        ensures { result ≡ self.now.reclamation }
    {
        self.status.contains(Status::RECLAMATION)
    }

    /// FRINDEX: the number of the present microframe, below 16,384.
    pub fn frame_index(&self) -> u16
        ensures value { result ≡ self.now.frame_index }
        ensures bound { result < 2 ^ 14 }
    {
        self.frame_index
    }

    /// PERIODICLISTBASE: where the frame list begins, a byte address that is a multiple of 4,096.
    pub fn periodic_list_base(&self) -> u32
        ensures value { result ≡ self.now.periodic_list_base }
        ensures aligned { result % 2 ^ 12 ≡ 0 }
    {
        self.periodic_list_base
    }

    /// The elements of the frame list: 1,024, or 512 where Frame List Size is 1, or 256 where it is 2 (EHCI 1.0 section 2.3.1).
    pub fn list_length(&self) -> u16
        ensures value { result ≡ 2 ^ levels_of self.now.list_size }
        ensures bound { result ≤ 1024 }
    {
        match self.list_size {
            1 => 512,
            2 => 256,
            _ => 1024,
        }
    }

    /// ASYNCLISTADDR: where the ring of queue heads is entered, a byte address that is a multiple of 32.
    pub fn async_list_address(&self) -> u32
        ensures value { result ≡ self.now.async_list_address }
        ensures aligned { result % 2 ^ 5 ≡ 0 }
    {
        self.async_list_address
    }

    /// What the driver reads at an offset, in bytes from the first register. None exactly where the table has no register.
    pub fn driver_read(&self, off: u32) -> Option<u32>
        ensures { result ≡ word_at self.now off }
    {
        match Register::at(off, self.port_count()) {
            Some(register) => Some(self.word(register)),
            None => None,
        }
    }

    fn word(&self, register: Register) -> u32
        ensures { result ≡ word_of self.now register }
    {
        match register {
            Register::Command => self.command_word(),
            Register::Status => self.status_word(),
            Register::InterruptEnable => self.interrupt_enable.bits(),
            Register::FrameIndex => self.frame_index as u32,
            Register::Segment => 0,
            Register::PeriodicListBase => self.periodic_list_base,
            Register::AsyncListAddress => self.async_list_address,
            Register::ConfigureFlag => self.configured as u32,
            Register::PortStatus(port) => self.port_word(port),
        }
    }

    fn port_word(&self, port: u8) -> u32
        ensures { result ≡ port_value port self.now.ports }
    {
        match &self.ports {
            Some(ports) => ports.read(port),
            None => PORT_STATUS,
        }
    }

    fn command_word(&self) -> u32
        ensures { result ≡ word_of self.now Register.Command }
    {
        self.running() as u32
            | (self.list_size as u32) << 2
            | (self.periodic_on() as u32) << 4
            | (self.async_on() as u32) << 5
            | (self.rung() as u32) << 6
            | (self.threshold as u32) << 16
    }

    // Whether a schedule runs that is enabled as `enable` says.
    fn runs_if(&self, enable: bool) -> bool
        ensures { result ≡ (self.now.run && enable) }
    {
        self.running() && enable
    }

    // Bits 5:0 of USBSTS.
    fn interrupts_word(&self) -> u32
        ensures word { result ≡ word_of_rows self.now (take 6 (rows Register.Status)) }
        ensures bound { result < 2 ^ 6 }
    {
        self.status.contains(Status::INTERRUPT) as u32
            | (self.status.contains(Status::ERROR) as u32) << 1
            | (self.status.contains(Status::PORT_CHANGE) as u32) << 2
            | (self.status.contains(Status::ROLLOVER) as u32) << 3
            | (self.status.contains(Status::HOST_SYSTEM_ERROR) as u32) << 4
            | (self.status.contains(Status::ASYNC_ADVANCE) as u32) << 5
    }

    fn status_word(&self) -> u32
        ensures { result ≡ word_of self.now Register.Status }
    {
        self.interrupts_word()
            | (!self.running() as u32) << 12
            | (self.reclamation() as u32) << 13
            | (self.runs_if(self.periodic_on()) as u32) << 14
            | (self.runs_if(self.async_on()) as u32) << 15
    }

    /// Writes a word of the driver at an offset, in bytes from the first register: each bit takes it as its row of the table says. False exactly where the table has no
    /// register, and nothing changes then.
    pub fn driver_write(&mut self, off: u32, v: u32) -> bool
        ensures known { result ≡ is_some (register_at (port_count self.old) off) }
        ensures file { self.new ≡ after_write self.old off v }
    {
        match Register::at(off, self.port_count()) {
            Some(register) => {
                self.write(register, v);
                true
            }
            None => false,
        }
    }

    fn write(&mut self, register: Register, word: u32)
        ensures { self.new ≡ after_write_to self.old register word }
    {
        match register {
            Register::Command => self.write_command(word),
            Register::Status => self.write_status(word),
            Register::InterruptEnable => self.write_interrupt_enable(word),
            Register::FrameIndex => self.write_frame_index(word),
            Register::PeriodicListBase => self.periodic_list_base = word & 0xffff_f000,
            Register::AsyncListAddress => self.async_list_address = word & 0xffff_ffe0,
            Register::ConfigureFlag => self.write_configure_flag(word),
            Register::PortStatus(port) => {
                self.port_event(&PortEvent::Write(port, word, self.running()))
            }
            Register::Segment => {}
        }
    }

    fn write_command(&mut self, word: u32)
        ensures { self.new ≡ after_write_to self.old Register.Command word }
    {
        if Command::from_bits_retain(word).contains(Command::RESET) {
            self.restart();
            return;
        }
        self.write_list_size(word);
        self.write_enables(word);
    }

    // Frame List Size is written while halted.
    fn write_list_size(&mut self, word: u32)
        ensures { self.new ≡ record self.old { list_size = taken Write.StoredHalted self.old.run self.old.list_size (bits_of word 3 2) } }
    {
        if !self.running() {
            self.list_size = ((word >> 2) & 3) as u8;
        }
    }

    // Run, the enables, the doorbell and the threshold.
    fn write_enables(&mut self, word: u32)
        ensures { self.new ≡ record self.old {
          run = bits_of word 0 0 == 1;
          periodic_enable = bits_of word 4 4 == 1;
          async_enable = bits_of word 5 5 == 1;
          doorbell = taken Write.SetByOne self.old.run (one_if self.old.doorbell) (bits_of word 6 6) == 1;
          threshold = bits_of word 23 16;
        } }
    {
        let written = Command::from_bits_retain(word);
        let rung = self.command.intersection(Command::DOORBELL);
        self.command = written.intersection(Command::HELD).union(rung);
        self.threshold = ((word >> 16) & 0xff) as u8;
    }

    fn write_status(&mut self, word: u32)
        ensures { self.new ≡ after_write_to self.old Register.Status word }
    {
        let written = Status::from_bits_retain(word);
        self.status.remove(written.intersection(Status::INTERRUPTS));
    }

    fn write_interrupt_enable(&mut self, word: u32)
        ensures { self.new ≡ after_write_to self.old Register.InterruptEnable word }
    {
        let written = Status::from_bits_retain(word);
        self.interrupt_enable = written.intersection(Status::INTERRUPTS);
    }

    fn write_frame_index(&mut self, word: u32)
        ensures { self.new ≡ after_write_to self.old Register.FrameIndex word }
    {
        if !self.running() {
            self.frame_index = (word & 0x3fff) as u16;
        }
    }

    fn write_configure_flag(&mut self, word: u32)
        ensures { self.new ≡ after_write_to self.old Register.ConfigureFlag word }
    {
        self.configured = word & 1 == 1;
        self.port_event(&PortEvent::Route(self.configured));
    }

    // HCReset: the root ports open anew with what is plugged in.
    fn restart(&mut self)
        ensures { self.new ≡ reset_of self.old }
    {
        let mut ports = self.ports.take();
        if let Some(ports) = &mut ports {
            ports.reopen();
        }
        *self = Registers::opened(ports);
    }

    // Makes an event of the root ports, and tells whether a connection change went from 0 to 1.
    fn event_of_ports(&mut self, e: &PortEvent) -> bool
        ensures ports { self.new ≡ record self.old { ports = option_map (ports_after e.now) self.old.ports } }
        ensures raised { result ≡ unwrap_or (option_map (λ ports. has_new_change ports (ports_after e.now ports)) self.old.ports) false }
    {
        match &mut self.ports {
            Some(ports) => ports.event_raises(e),
            None => false,
        }
    }

    fn port_event(&mut self, e: &PortEvent)
        ensures { self.new ≡ after_port_event e.now self.old.ports self.old }
    {
        if self.event_of_ports(e) {
            self.tell_port_change();
        }
    }

    fn tell_port_change(&mut self)
        ensures { self.new ≡ record self.old { port_change = true } }
    {
        self.status.insert(Status::PORT_CHANGE);
    }

    /// What is declared at a root port is plugged in. Nothing changes where there are no `RootPorts`, where the port isn't there or has nothing declared, and where it is
    /// plugged in already. Port Change Detect is raised where the connection change goes from 0 to 1.
    pub fn plug(&mut self, port: u8)
        ensures { self.new ≡ after_plug self.old port }
    {
        self.port_event(&PortEvent::Plug(port));
    }

    /// What is plugged in at a root port is unplugged. Nothing changes where there are no `RootPorts`, where the port isn't there, and where nothing is plugged in. Port Change
    /// Detect is raised where the connection change goes from 0 to 1.
    pub fn unplug(&mut self, port: u8)
        ensures { self.new ≡ after_unplug self.old port }
    {
        self.port_event(&PortEvent::Unplug(port));
    }

    /// Raises the bits of `bits` in USBSTS (EHCI 1.0 section 2.3.2): bits 5:0 and Reclamation. HCHalted and the status of the schedules follow USBCMD at once, so those of
    /// `bits` raise nothing, and neither do bits that aren't named.
    pub fn raise(&mut self, bits: Status)
        ensures { self.new ≡ after_raise self.old bits }
    {
        self.status.insert(bits.intersection(Status::RAISED));
    }

    // Whether the frame list rolls over between two values of FRINDEX.
    fn rolls_over(&self, before: u16, after: u16) -> bool
        ensures { result ≡ not (after / 2 ^ (3 + levels_of self.now.list_size) == before / 2 ^ (3 + levels_of self.now.list_size)) }
    {
        match self.list_size {
            1 => after >> 12 != before >> 12,
            2 => after >> 11 != before >> 11,
            _ => after >> 13 != before >> 13,
        }
    }

    /// Begins the next microframe: FRINDEX rises by one, modulo 16,384, and Frame List Rollover is raised where its bit 13 changes, or with a list of 512 elements
    /// bit 12, or of 256 bit 11 (EHCI 1.0 sections 2.3.2 and 2.3.4). Answers the new FRINDEX.
    pub fn begin_microframe(&mut self) -> u16
        ensures file { self.new ≡ after_begin self.old }
        ensures index { result ≡ self.new.frame_index }
    {
        let before = self.frame_index;
        self.frame_index = (before + 1) % 16_384;
        if self.rolls_over(before, self.frame_index) {
            self.status.insert(Status::ROLLOVER);
        }
        self.frame_index
    }

    /// The controller came past the head of the ring with the doorbell set: Interrupt on Async Advance is raised, and the doorbell cleared (EHCI 1.0 section 4.8.2).
    /// Nothing but this and a reset clears the doorbell.
    pub fn advance(&mut self)
        ensures { self.new ≡ after_advance self.old }
    {
        self.status.insert(Status::ASYNC_ADVANCE);
        self.command.remove(Command::DOORBELL);
    }

    /// Sets or clears Reclamation, and no other bit (EHCI 1.0 section 4.8.3).
    pub fn set_reclamation(&mut self, on: bool)
        ensures { self.new ≡ after_reclamation self.old on }
    {
        self.status.set(Status::RECLAMATION, on);
    }

    /// A host system error: it is raised, and Run is cleared, so that HCHalted reads 1 and the status of both schedules 0 (EHCI 1.0 section 4.15.2.4). The enables stay.
    pub fn fault(&mut self)
        ensures { self.new ≡ after_fault self.old }
    {
        self.status.insert(Status::HOST_SYSTEM_ERROR);
        self.command.remove(Command::RUN);
    }
}
