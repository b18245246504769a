ghost use Rattle.std.specs.Prelude.{◌≡◌, ◌≤◌, ◌<◌, ◌^◌, ◌++◌, ◌∷◌, [], ◌==◌, length, find, vec_capacity, IfSome};
ghost use Rattle.std.specs.Option.{option_copied};
ghost use Rattle.usb_base.specs.declared.endpoints.EpName.{EpName as Named};
ghost use Rattle.report_text.specs.ReportText.{AreStored};
ghost use Rattle.endpoint_script.specs.Device.{taken_of};
ghost use Rattle.bus_wire.specs.Resets.{bus_reset};
ghost use Rattle.drv_jobs.specs.JobOffers.{IsOfferedAny};
ghost use Rattle.law_admission.specs.Budgets.{account_of, KeepsBudgets};
ghost use Rattle.bus_world.specs.Sound.{IsSoundAtWork};
ghost use Rattle.bus_world.specs.World.{controller_next, kind_next, endpoint_zero, name_in};
ghost use Rattle.bus_world.specs.AtWork.{reset_in, taken_at, driver_next_at_work, next_at_work, room_in, commanded_at_work};

use crate::marks::Mark;
use bus_wire::{Seat, UsbBus};
use drv_table::DriverStep;
use ehci_driver::{Driver, DriverAtWork};
use endpoint_script::Device;
use hc_core::{Controller, HcStep};
use hub_class::Hub;
use op_registers::Registers;
use script_types::Event;
use std::marker::Model;
use usb_base::{Cmd, DevAddr, EpName, EpNum, Way};
use word_mem::WordMem;

/// The world of a script, at the end of some event. Contracts see what is fixed of its bus, and the content `WorldAtWork` of
/// specs/AtWork.antt.
#[derive(Drop)]
pub struct World {
    registers: Registers,
    mem: WordMem,
    controller: Controller,
    driver: DriverAtWork,
    bus: UsbBus,
    marks: Vec<Mark>,
}

impl Model for World {
    ghost use Rattle.std.specs.Prelude.{length, vec_capacity};
    ghost use Rattle.bus_world.specs.AtWork.{StandingAtWork};
    ghost use Rattle.bus_world.specs.Sound.{IsSoundAtWork};

    ghost Value = { StandingAtWork };

    ghost view = { λ w. record {
      fixed = w.bus.fixed;
      work = record {
        world = record { registers = w.registers; memory = w.mem; control = w.controller; driver = w.driver.driver; bus = w.bus.bus };
        job = w.driver.job;
        marks = w.marks.items;
      };
    } };

    ghost invariant = { λ w. IsSoundAtWork w.driver w.mem w.bus.bus (length w.marks.items) (vec_capacity w.marks) };
}

/// The endpoint that a command is for.
fn name_of(cmd: &Cmd) -> EpName
    ensures { result ≡ name_in cmd.now }
{
    match cmd {
        Cmd::OpenEp(desc) => desc.name,
        Cmd::Get { name, .. }
        | Cmd::Put { name, .. }
        | Cmd::Control { name, .. }
        | Cmd::Iso { name, .. } => *name,
        Cmd::Cancel(name) | Cmd::Clear(name) => *name,
        Cmd::Reset(_) | Cmd::Give(_) => endpoint_zero(DevAddr::zero()),
        Cmd::DiskRead { addr, .. } | Cmd::DiskWrite { addr, .. } => endpoint_zero(*addr),
        Cmd::Revive(addr) => endpoint_zero(*addr),
    }
}

/// The control endpoint 0 of this address.
fn endpoint_zero(addr: DevAddr) -> EpName
    ensures { result ≡ endpoint_zero addr }
{
    EpName {
        addr,
        num: EpNum::zero(),
        way: Way::Ctl,
    }
}

/// The endpoint that an event of the driver resets, if it is one that does.
fn reset_in(step: DriverStep) -> Option<EpName>
    ensures { result ≡ reset_in step }
{
    match step {
        DriverStep::Reset(name) => Some(name),
        _ => None,
    }
}

/// How many bytes the device of an endpoint took there.
fn taken_at(bus: &UsbBus, name: &EpName) -> usize
    ensures { result ≡ taken_at bus.now.bus name.now }
{
    match bus.device(name.addr) {
        Some(device) => device.taken(name).len(),
        None => 0,
    }
}

/// An endpoint is reset, and what was taken there is marked.
fn reset(bus: &mut UsbBus, marks: &mut Vec<Mark>, name: &EpName)
    requires { length marks.old.items < vec_capacity marks.old }
    ensures bus { bus.new ≡ record bus.old { bus = bus_reset name.now bus.old.bus } }
    ensures marks { marks.new.items ≡ marks.old.items ++ record { name = name.now; taken = taken_at bus.old.bus name.now } ∷ [] }
    ensures capacity { vec_capacity marks.new ≡ vec_capacity marks.old }
{
    let taken = taken_at(bus, name);
    marks.push_reserved(Mark { name: *name, taken });
    bus.reset(name);
}

impl World {
    /// The world of these parts.
    pub(crate) fn of_parts(
        registers: Registers,
        mem: WordMem,
        controller: Controller,
        driver: DriverAtWork,
        bus: UsbBus,
        marks: Vec<Mark>,
    ) -> World
        requires { IsSoundAtWork driver mem bus.bus (length marks.items) (vec_capacity marks) }
        ensures { result ≡ record {
          fixed = bus.fixed;
          work = record {
            world = record { registers = registers; memory = mem; control = controller; driver = driver.driver; bus = bus.bus };
            job = driver.job;
            marks = marks.items;
          };
        } }
    {
        World {
            registers,
            mem,
            controller,
            driver,
            bus,
            marks,
        }
    }

    /// One step of the driver, with the reset of an endpoint where it is one.
    pub(crate) fn driver_event(&mut self)
        ensures { self.new ≡ record self.old { work = driver_next_at_work self.old.work } }
    {
        let step = self.driver.step(&mut self.registers, &mut self.mem);
        if let Some(name) = reset_in(step) {
            reset(&mut self.bus, &mut self.marks, &name);
        }
    }

    /// One step of the controller.
    pub(crate) fn controller_event(&mut self) -> HcStep
        ensures kind { result ≡ kind_next self.old.work.world }
        ensures work { self.new ≡ record self.old { work = next_at_work self.old.fixed self.old.work Event.C } }
    {
        self.controller
            .step(&mut self.registers, &mut self.mem, &mut self.bus)
    }

    /// Makes one event: one step of the driver, or one of the controller.
    pub fn event(&mut self, event: Event)
        ensures { self.new ≡ record self.old { work = next_at_work self.old.fixed self.old.work event } }
    {
        match event {
            Event::D => self.driver_event(),
            Event::C => {
                self.controller_event();
            }
        }
    }

    /// Offers the command on this line of the script to the driver; a refusal becomes a line of the report.
    pub fn offer(&mut self, line: u32, cmd: &Cmd)
        requires room { IsOfferedAny (room_in self.old.work) cmd.now }
        requires report { 1 ≤ (room_in self.old.work).reports }
        ensures { self.new ≡ record self.old { work = commanded_at_work self.old.work line cmd.now } }
    {
        if let Err(why) = self.driver.offer(cmd, &mut self.mem) {
            self.driver.refuse(line, name_of(cmd), why);
        }
    }

    /// The driver.
    pub fn driver(&self) -> &Driver
        ensures driver { result.now ≡ self.now.work.world.driver }
        ensures stored { AreStored self.now.work.world.driver.reports (length self.now.work.world.driver.store) }
        ensures budgets { KeepsBudgets (account_of self.now.work.world.driver) }
    {
        self.driver.driver()
    }

    /// What endpoints had taken as they were reset, in the order of the resets.
    pub fn marks(&self) -> &[Mark]
        ensures { result.now ≡ self.now.work.marks }
    {
        self.marks.as_slice()
    }

    /// The words.
    pub fn mem(&self) -> &WordMem
        ensures { result.now ≡ self.now.work.world.memory }
    {
        &self.mem
    }

    /// The registers.
    pub fn registers(&self) -> &Registers
        ensures { result.now ≡ self.now.work.world.registers }
    {
        &self.registers
    }

    /// The controller.
    pub fn controller(&self) -> &Controller
        ensures { result.now ≡ self.now.work.world.control }
    {
        &self.controller
    }

    /// The endpoints, in the order of their lines.
    pub fn seats(&self) -> &[Seat]
        ensures { result.now ≡ self.now.fixed.seats }
    {
        self.bus.seats()
    }

    /// The device with this address; None exactly where there is none.
    pub fn device(&self, addr: DevAddr) -> Option<&Device>
        ensures device { option_copied result ≡ find (λ d. d.address == addr) self.now.work.world.bus.devices }
        ensures few { (name : Named) → IfSome result (λ d. length (taken_of d.now name) < 2 ^ 32) }
    {
        self.bus.device(addr)
    }

    /// The hub with this address; None exactly where there is none.
    pub fn hub(&self, addr: DevAddr) -> Option<&Hub>
        ensures { option_copied result ≡ find (λ h. h.address == addr) self.now.work.world.bus.hubs }
    {
        self.bus.hub(addr)
    }
}
