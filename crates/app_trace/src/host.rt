//! The host of a script, event by event, with what is told of each.
ghost use Rattle.std.specs.Prelude.{◌≡◌, ◌≤◌, IfOk, IfSome, IfNone, length, None, [], true};
ghost use Rattle.hc_core.specs.Controller.{either_address};
ghost use Rattle.script_fits.specs.Fits.{IsFit, IsFitCommand};
ghost use Rattle.app_trace.specs.Watched.{told_address, is_begin, price_in, told_with, Tells, Steps, step_next, IsControlled, parts_of, work_of, reset_in, room_in, driven, IsStored, IsDriven, answer_to, refusal_of, with_offered, IsCommanded, IsOpening};
ghost use Rattle.drv_jobs.specs.JobOffers.{IsOfferedAny};
ghost use Rattle.drv_table.specs.Opening.{opening};
ghost use Rattle.mem_runs.specs.Book.{holding, Stands};
ghost use Rattle.bus_wire.specs.Bus.{opening_wired};
ghost use Rattle.drv_jobs.specs.Jobs.{job_row};

use crate::reserve::{can_offer, reserve_of};
use crate::shadow::Shadow;
use app_trace_lines::{Entry, Happening, Work};
use bandwidth::Plan;
use bus_packets::{Exchange, Passed};
use bus_recorder::{BelowRecorder, Recorder};
use drv_jobs::JobRow;
use drv_table::{DriverRow, DriverStep, Endpoint};
use ehci_driver::{Driver, DriverAtWork, Reserve};
use hc_core::{Controller, HcStep};
use op_registers::Registers;
use script_types::Script;
use std::alloc::Global;
use std::marker::Model;
use usb_base::{Cmd, EpName, Fate, Memory, OfferError};
use word_mem::WordMem;

/// A host with its recorded bus, at the end of some event.
#[derive(Drop)]
pub struct Host {
    registers: Registers,
    mem: WordMem,
    controller: Controller,
    driver: DriverAtWork,
    wire: Recorder,
    hubs: BelowRecorder,
    shadow: Shadow,
    below: Vec<u64>,
    works: Vec<Work>,
    microframe: u32,
}

impl Model for Host {
    ghost use Rattle.app_trace.specs.Watched.{Watched};
    ghost use Rattle.mem_runs.specs.Book.{holding, Stands};

    ghost Value = { Watched };

    ghost view = { λ h. record {
      registers = h.registers;
      memory = h.mem;
      control = h.controller;
      driver = h.driver.driver;
      job = h.driver.job;
      recorded = h.wire;
    } };

    ghost invariant = { λ h. Stands (holding h.driver.driver.book h.mem) };
}

/// The first of both, else the other.
fn either(first: Option<u32>, other: Option<u32>) -> Option<u32>
    ensures { result ≡ either_address first other }
{
    match first {
        Some(at) => Some(at),
        None => other,
    }
}

/// The structure that an event is about, by those in hand before and after it.
fn told_address(step: HcStep, before: Option<u32>, after: Option<u32>) -> Option<u32>
    ensures { result ≡ told_address step before after }
{
    match step {
        HcStep::Begin | HcStep::End | HcStep::Idle => None,
        HcStep::Fetch => either(after, before),
        HcStep::Advance | HcStep::Transact | HcStep::WriteBack | HcStep::Skip => {
            either(before, after)
        }
    }
}

/// What a transaction has cost, by the time left before it and behind it.
fn price_in(exchange: &Option<Exchange>, time: u64, left: u64) -> u64
    ensures { result ≡ price_in exchange.now time left }
{
    match exchange {
        Some(_) => time.saturating_sub(left),
        None => 0,
    }
}

/// The endpoint that an event of the driver resets, if it is one that does.
fn reset_in(step: DriverStep) -> Option<EpName>
    ensures { result ≡ reset_in step }
{
    match step {
        DriverStep::Reset(name) => Some(name),
        _ => None,
    }
}

fn is_begin(step: HcStep) -> bool
    ensures { result ≡ is_begin step }
{
    match step {
        HcStep::Begin => true,
        HcStep::Fetch | HcStep::Advance | HcStep::Transact | HcStep::WriteBack => false,
        HcStep::Skip | HcStep::End | HcStep::Idle => false,
    }
}

/// How many packets of an endpoint below a translator are lost or damaged, from one number to before another.
fn unheard(wire: &Recorder, name: &EpName, first: u64, end: u64) -> u32 {
    let mut unheard = 0u32;
    for fate in wire.fates() {
        let k = fate.k as u64;
        if fate.down && fate.fate != Fate::Good && fate.name == *name && first <= k && k < end {
            unheard = unheard.saturating_add(1);
        }
    }
    unheard
}

/// Appends the work of an endpoint.
fn push(works: &mut Vec<Work>, work: Work) -> Result<(), Memory> {
    match works.push(work) {
        Ok(()) => Ok(()),
        Err(_) => Err(Memory),
    }
}

/// The recorded bus of a script, the hubs that follow its hubs, and how many packets of each endpoint went below.
fn recorders(alloc: Global, script: &Script) -> Result<(Recorder, BelowRecorder, Vec<u64>), Memory>
    requires { IsFit script.now }
    ensures { IfOk result (λ r. r.0 ≡ record { wired = opening_wired script.now; exchange = None; sent = []; got = []; allowed = true }) }
{
    let wire = Recorder::build(alloc, script)?;
    let below = vec![in alloc; 0u64; wire.seats().len()]?;
    let hubs = BelowRecorder::build(alloc, script, wire.seats())?;
    Ok((wire, hubs, below))
}

/// The driver of a script with its memory and its registers.
fn machine(
    alloc: Global,
    script: &Script,
    reserve: &Reserve,
) -> Result<(Driver, WordMem, Registers), Memory>
    requires { IsFit script.now }
    ensures parts { IfOk result (λ r. record { driver = r.0; registers = r.2; memory = r.1 } ≡ opening script.now.words reserve.now) }
    ensures stands { IfOk result (λ r. Stands (holding r.0.book r.1)) }
{
    let mut mem = WordMem::build(alloc, script.words)?;
    let mut registers = Registers::reset();
    let driver = Driver::build(alloc, reserve, &mut registers, &mut mem)?;
    Ok((driver, mem, registers))
}

impl Host {
    /// The host of a script, at the end of microframe 0.
    ///
    /// # Errors
    ///
    /// `Memory` where a part of it finds no room.
    pub fn build(alloc: Global, script: &Script) -> Result<Host, Memory>
        requires { IsFit script.now }
        ensures { IfOk result (λ h. IsOpening script.now h) }
    {
        let Some(reserve) = reserve_of(script) else {
            return Err(Memory);
        };
        let shadow = Shadow::build(alloc, script.words)?;
        let (wire, hubs, below) = recorders(alloc, script)?;
        let (driver, mem, registers) = machine(alloc, script, &reserve)?;
        Ok(Host {
            registers,
            mem,
            controller: Controller::new(),
            driver: DriverAtWork::new(driver),
            wire,
            hubs,
            shadow,
            below,
            works: Vec::new(alloc),
            microframe: 0,
        })
    }

    /// The transactions below of translators for the microframe that ended last.
    pub fn passed(&self) -> &[Passed] {
        self.hubs.passed()
    }

    /// The packets of endpoints below translators in the microframe that ended last.
    pub fn works(&self) -> &[Work] {
        self.works.as_slice()
    }

    /// The microframe that began last, counted from 1; 0 before the first.
    pub fn microframe(&self) -> u32 {
        self.microframe
    }

    /// Whether the driver is at work on a command, or at a job.
    pub fn is_busy(&self) -> bool {
        self.driver.busy()
    }

    /// The endpoints that were opened.
    pub fn endpoints(&self) -> &[Endpoint] {
        self.driver.driver().endpoints()
    }

    /// The plan of the periodic ones.
    pub fn plan(&self) -> &Plan {
        self.driver.driver().plan()
    }

    /// The entry of what happened.
    fn entry(&self, happening: Happening) -> Entry
        ensures happening { result.happening ≡ happening }
        ensures index { result.frame_index ≡ self.now.registers.frame_index }
    {
        Entry {
            microframe: self.microframe,
            frame_index: self.registers.frame_index(),
            happening,
        }
    }

    /// What a Begin is told with.
    fn began(&mut self) -> Happening
        ensures told { result ≡ Happening.Began self.old.recorded.allowed }
        ensures same { self.new ≡ self.old }
    {
        let allowed = self.wire.allowed();
        self.microframe = self.microframe.saturating_add(1);
        Happening::Began(allowed)
    }

    /// What any other event of the controller is told with, by the structure in hand and the time left before it.
    fn told(&self, step: HcStep, before: Option<u32>, time: u64) -> Happening
        ensures { result ≡ told_with step before time self.now }
    {
        let exchange = self.wire.exchange();
        let left = self.controller.left().0;
        Happening::Controller {
            step,
            at: told_address(step, before, self.controller.held()),
            exchange,
            price: price_in(&exchange, time, left),
            left,
        }
    }

    /// What an event of the controller is told with, by the structure in hand and the time left before it.
    fn happening(&mut self, step: HcStep, before: Option<u32>, time: u64) -> Happening
        ensures told { Tells step before time self.old result }
        ensures same { self.new ≡ self.old }
    {
        if is_begin(step) {
            return self.began();
        }
        self.told(step, before, time)
    }

    /// The next event of the controller, over the recorded wire.
    fn step(&mut self) -> HcStep
        ensures kind { result ≡ step_next self.old }
        ensures row { Steps self.old self.new }
        ensures driver { self.new.driver ≡ self.old.driver }
        ensures job { self.new.job ≡ self.old.job }
    {
        self.wire.forget();
        self.controller
            .step(&mut self.registers, &mut self.mem, &mut self.wire)
    }

    /// One event of the controller.
    pub fn controller_event(&mut self) -> Entry
        ensures { IsControlled self.old result self.new }
    {
        let before = self.controller.held();
        let time = self.controller.left().0;
        let step = self.step();
        self.clear();
        self.follow();
        let happening = self.happening(step, before, time);
        self.entry(happening)
    }

    /// Lets the hubs follow that are told of each transaction.
    fn follow(&mut self)
        ensures { self.new ≡ self.old }
    {
        if let Some(exchange) = self.wire.exchange() {
            self.hubs.follow(&exchange, self.wire.sent());
        }
    }

    /// Notes what translators did below, behind a Begin.
    ///
    /// # Errors
    ///
    /// `Memory` where it finds no room.
    pub fn note_works(&mut self) -> Result<(), Memory>
        ensures { self.new ≡ self.old }
    {
        self.hubs.begin(self.registers.frame_index())?;
        for place in 0..self.below.len() {
            self.note_work(place)?;
        }
        Ok(())
    }

    /// Notes the packets below of the endpoint at a place.
    fn note_work(&mut self, place: usize) -> Result<(), Memory>
        ensures { self.new ≡ self.old }
    {
        let Some(end) = self.wire.next_below(place) else {
            return Ok(());
        };
        let Some(seat) = self.wire.seats().get(place) else {
            return Ok(());
        };
        let name = seat.name;
        if place >= self.below.len() {
            return Ok(());
        }
        let first = self.below[place];
        if first != end {
            let unheard = unheard(&self.wire, &name, first, end);
            self.below[place] = end;
            return push(
                &mut self.works,
                Work {
                    name,
                    first,
                    end,
                    unheard,
                },
            );
        }
        Ok(())
    }

    /// Which row the next event of the driver is.
    fn next_row(&self) -> JobRow
        ensures { result ≡ job_row (work_of self.now) }
    {
        self.driver.row(&self.registers, &self.mem)
    }

    /// Keeps the words as they are before a descriptor is unlinked, so that its store is found.
    fn keep_words(&mut self, row: &JobRow)
        ensures { self.new ≡ self.old }
    {
        if let JobRow::Plain(DriverRow::Unlink(_)) = row {
            self.shadow.copy(&self.mem);
        }
    }

    /// The next event of the driver, with the reset of an endpoint where it is one.
    #[tactic(auto, unfolding(crate::specs::Watched::driven))]
    fn drive(&mut self)
        ensures { self.new ≡ driven self.old }
    {
        let step = self.driver.step(&mut self.registers, &mut self.mem);
        if let Some(name) = reset_in(step) {
            self.wire.reset(&name);
            self.hubs.reset(&name);
        }
    }

    /// The word that an event of the driver stored, by its row.
    fn stored(&self, row: &JobRow) -> Option<(u32, u32)>
        ensures { IsStored row.now result self.now }
    {
        match row {
            JobRow::Plain(DriverRow::Store(_, at, value)) => Some((*at, *value)),
            JobRow::Plain(DriverRow::Mend(mend)) => Some((mend.at, mend.value)),
            JobRow::Plain(DriverRow::Unlink(_)) => self.shadow.changed(&self.mem),
            JobRow::Mends(mend) => Some((mend.at, mend.value)),
            _ => None,
        }
    }

    /// No work below is told any more.
    fn clear(&mut self)
        ensures { self.new ≡ self.old }
    {
        self.works.clear();
        self.hubs.forget();
    }

    /// One event of the driver, with the word that it stores.
    pub fn driver_event(&mut self) -> Entry
        ensures { IsDriven self.old result self.new }
    {
        self.clear();
        let row = self.next_row();
        self.keep_words(&row);
        self.drive();
        let stored = self.stored(&row);
        self.entry(Happening::Driver { row, stored })
    }

    /// The bytes that the host sent in the transaction that was made last.
    pub fn sent(&self) -> &[u8]
        ensures bytes { result.now ≡ self.now.recorded.sent }
        ensures few { length self.now.recorded.sent ≤ 1024 }
    {
        self.wire.sent()
    }

    /// The bytes of the data that came in answer in the transaction that was made last.
    pub fn got(&self) -> &[u8]
        ensures bytes { result.now ≡ self.now.recorded.got }
        ensures few { length self.now.recorded.got ≤ 1024 }
    {
        self.wire.got()
    }

    /// Offers a command: why it was refused, if it was.
    #[tactic(auto, unfolding(crate::specs::Watched::answer_to))]
    fn command(&mut self, cmd: &Cmd) -> Option<OfferError>
        requires { IsOfferedAny (room_in self.old) cmd.now }
        ensures refused { result ≡ refusal_of (answer_to self.old cmd.now) }
        ensures next { self.new ≡ with_offered self.old (answer_to self.old cmd.now) }
    {
        match self.driver.offer(cmd, &mut self.mem) {
            Ok(()) => None,
            Err(why) => Some(why),
        }
    }

    /// Offers the command on a line of the script; None where there is no room for it.
    pub fn offer(&mut self, line: u32, cmd: &Cmd) -> Option<Entry>
        requires { IsFitCommand cmd.now }
        ensures told { IfSome result (λ e. IsCommanded self.old e self.new) }
        ensures same { IfNone result (self.new ≡ self.old) }
    {
        if !can_offer(&self.driver.room(), cmd) {
            return None;
        }
        self.clear();
        let refused = self.command(cmd);
        Some(self.entry(Happening::Offered(line, refused)))
    }
}
