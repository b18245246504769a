ghost use Rattle.std.specs.Prelude.{◌≡◌, ◌↔◌, false};
ghost use Rattle.word_mem.specs.Access.{IsByController};
ghost use Rattle.async_walk.specs.Causes.{AreRefusalsFaults};
ghost use Rattle.hc_core.specs.Controller.{content, new_control, either_address, address_in_hand, time_left, microframe_row, Begins, ended, entered_control, hc_step, part_after, frame_step, WalksFrame, walk_step, Walks, HasRow, kind_of};

use async_walk::{AsyncState, WalkStep, step as walk_ring};
use hc_memory::HcMemory;
use link_words::read;
use op_registers::Registers;
use periodic_walk::{PeriodicState, step as walk_frame};
use std::marker::Model;
use usb_base::limits::MICROFRAME_TIME;
use usb_base::{Ps, Wire};

/// One event of the controller.
#[derive(Clone, Copy, Debug, PartialEq, Eq)]
pub enum HcStep {
    /// A microframe began (EHCI 1.0, 4.6).
    Begin,
    /// A structure was read into the copy in hand (4.10.1).
    Fetch,
    /// The copy's overlay was made from a qTD and written (4.10.2).
    Advance,
    /// One transaction was made (4.10.3).
    Transact,
    /// Received bytes and words 3 to 11 were written (4.10.4).
    WriteBack,
    /// There was nothing to do at the structure in hand.
    Skip,
    /// The microframe is over, or the controller met what it can't go on from.
    End,
    /// The controller doesn't run.
    Idle,
}

/// The part of the microframe that the controller is in.
#[derive(Clone, Copy, Debug, PartialEq, Eq)]
pub enum MicroframePart {
    /// The microframe is over.
    Over,
    /// The chain of the frame is walked.
    Periodic,
    /// The ring is walked.
    Asynchronous,
}

/// The kind of an event, before it is made.
#[derive(Clone, Copy, Debug, PartialEq, Eq)]
pub enum ControllerRow {
    /// The controller doesn't run.
    Idle,
    /// A microframe begins.
    Begin,
    /// The periodic part goes on.
    Frame,
    /// The asynchronous part begins with its first event.
    Enter,
    /// The asynchronous part goes on.
    Go,
    /// The microframe is over.
    End,
}

/// The host controller: where in the microframe it is, and its walks of the frame's chain and of the ring.
#[derive(Debug, Drop)]
pub struct Controller {
    pub(crate) part: MicroframePart,
    pub(crate) frame: PeriodicState,
    pub(crate) walk: AsyncState,
}

impl Model for Controller {
    ghost use Rattle.hc_core.specs.Controller.{Control};

    ghost Value = { Control };

    ghost view = { λ c. record { part = c.part; frame = c.frame; walk = c.walk } };
}

fn kind(step: WalkStep) -> HcStep
    ensures { result ≡ hc_step step }
{
    match step {
        WalkStep::Fetch => HcStep::Fetch,
        WalkStep::Advance => HcStep::Advance,
        WalkStep::Transact => HcStep::Transact,
        WalkStep::WriteBack => HcStep::WriteBack,
        WalkStep::Skip => HcStep::Skip,
        WalkStep::Ended | WalkStep::Fault => HcStep::End,
    }
}

/// Where in the microframe an event of a walk leaves the controller.
fn part_of(part: MicroframePart, step: WalkStep) -> MicroframePart
    ensures { result ≡ part_after part step }
{
    match step {
        WalkStep::Ended | WalkStep::Fault => MicroframePart::Over,
        _ => part,
    }
}

/// The first of both, else the other.
fn either(first: Option<u32>, other: Option<u32>) -> Option<u32>
    ensures { result ≡ either_address first other }
{
    match first {
        Some(at) => Some(at),
        None => other,
    }
}

impl Controller {
    /// A controller at the end of a microframe, with no copy in hand.
    pub fn new() -> Controller
        ensures { result ≡ new_control }
    {
        Controller {
            part: MicroframePart::Over,
            frame: PeriodicState::new(),
            walk: AsyncState::new(),
        }
    }

    /// The byte address of the structure whose copy is in hand; None exactly where no copy is.
    pub fn held(&self) -> Option<u32>
        ensures { result ≡ address_in_hand self.now }
    {
        either(self.frame.held(), self.walk.held())
    }

    /// The time left in the microframe; none where it is over.
    pub fn left(&self) -> Ps
        ensures { result.0 ≡ time_left self.now }
    {
        match self.part {
            MicroframePart::Over => Ps(0),
            MicroframePart::Periodic => self.frame.left(),
            MicroframePart::Asynchronous => self.walk.left(),
        }
    }

    /// The kind of the next event.
    fn row(&self, regs: &Registers) -> ControllerRow
        ensures { result ≡ microframe_row regs.now self.now }
    {
        if !regs.running() {
            return ControllerRow::Idle;
        }
        match self.part {
            MicroframePart::Over => ControllerRow::Begin,
            MicroframePart::Periodic if regs.periodic_on() && !self.frame.is_over() =>
                ControllerRow::Frame,
            MicroframePart::Periodic if regs.async_on() => ControllerRow::Enter,
            MicroframePart::Asynchronous if regs.async_on() => ControllerRow::Go,
            MicroframePart::Periodic | MicroframePart::Asynchronous => ControllerRow::End,
        }
    }

    /// Begins a microframe: FRINDEX is stepped, the wire asked, and the element of the frame list read.
    fn begin<W: Wire, M: HcMemory>(&mut self, regs: &mut Registers, mem: &mut M, wire: &mut W)
        ensures row { Begins W.begins (content self.old regs.old (M.mem mem.old)) wire.old (content self.new regs.new (M.mem mem.new))
            wire.new }
        ensures only_lent { IsByController (M.mem mem.old) (M.mem mem.new) }
        ensures refused { AreRefusalsFaults (M.mem mem.old) (M.mem mem.new) regs.new }
    {
        let index = regs.begin_microframe();
        let left = if wire.begin(index) {
            MICROFRAME_TIME
        } else {
            0
        };
        let at = regs.periodic_list_base() + 4 * (index as u32 / 8 % regs.list_length() as u32);
        match mem.hc_read(at) {
            Some(word) => {
                self.part = MicroframePart::Periodic;
                self.frame.begin(read(word), index, Ps(left));
            }
            None => regs.fault(),
        }
    }

    fn end(&mut self)
        ensures { self.new ≡ ended self.old }
    {
        self.part = MicroframePart::Over;
        self.frame.stop();
        self.walk.stop();
    }

    fn enter(&mut self)
        ensures { self.new ≡ entered_control self.old }
    {
        self.part = MicroframePart::Asynchronous;
        self.frame.stop();
        self.walk.begin(self.frame.left());
    }

    /// One event of the walk of the frame's chain.
    fn go_frame<W: Wire, M: HcMemory>(
        &mut self,
        regs: &mut Registers,
        mem: &mut M,
        wire: &mut W,
    ) -> HcStep
        ensures kind { result ≡ hc_step (frame_step (content self.old regs.old (M.mem mem.old))) }
        ensures row { WalksFrame W.transacts (content self.old regs.old (M.mem mem.old)) wire.old
            (content self.new regs.new (M.mem mem.new)) wire.new }
        ensures only_lent { IsByController (M.mem mem.old) (M.mem mem.new) }
        ensures refused { AreRefusalsFaults (M.mem mem.old) (M.mem mem.new) regs.new }
    {
        let step = walk_frame(&mut self.frame, regs, mem, wire);
        self.part = part_of(MicroframePart::Periodic, step);
        kind(step)
    }

    /// One event of the walk of the ring.
    fn go<W: Wire, M: HcMemory>(
        &mut self,
        regs: &mut Registers,
        mem: &mut M,
        wire: &mut W,
    ) -> HcStep
        ensures kind { result ≡ hc_step (walk_step (content self.old regs.old (M.mem mem.old))) }
        ensures row { Walks W.transacts (content self.old regs.old (M.mem mem.old)) wire.old (content self.new regs.new (M.mem mem.new))
            wire.new }
        ensures only_lent { IsByController (M.mem mem.old) (M.mem mem.new) }
        ensures refused { AreRefusalsFaults (M.mem mem.old) (M.mem mem.new) regs.new }
    {
        let step = walk_ring(&mut self.walk, regs, mem, wire);
        self.part = part_of(MicroframePart::Asynchronous, step);
        kind(step)
    }

    /// Makes one event, the first that fits, over whatever registers, words and wire it is lent.
    ///
    /// - `Idle` exactly where Run is 0; nothing changes.
    /// - `Begin` where the last microframe has ended. Where the element of the frame list lies in no Lent block, that is a host system
    ///   error.
    /// - `End` where the parts of the microframe are over, or where the controller met what it can't go on from: then Host System Error
    ///   stands and Run is 0.
    /// - Else an event of the walk of the frame's chain, and when that has ended one of the walk of the ring.
    pub fn step<W: Wire, M: HcMemory>(
        &mut self,
        regs: &mut Registers,
        mem: &mut M,
        wire: &mut W,
    ) -> HcStep
        ensures kind { result ≡ kind_of (microframe_row regs.old self.old) (content self.old regs.old (M.mem mem.old)) }
        ensures row { HasRow W.begins W.transacts (microframe_row regs.old self.old) (content self.old regs.old (M.mem mem.old)) wire.old
            (content self.new regs.new (M.mem mem.new)) wire.new }
        ensures idle { (result ≡ HcStep.Idle) ↔ (regs.old.run ≡ false) }
        ensures only_lent { IsByController (M.mem mem.old) (M.mem mem.new) }
        ensures refused { AreRefusalsFaults (M.mem mem.old) (M.mem mem.new) regs.new }
    {
        match self.row(regs) {
            ControllerRow::Idle => HcStep::Idle,
            ControllerRow::Begin => {
                self.begin(regs, mem, wire);
                HcStep::Begin
            }
            ControllerRow::Frame => self.go_frame(regs, mem, wire),
            ControllerRow::Enter => {
                self.enter();
                self.go(regs, mem, wire)
            }
            ControllerRow::Go => self.go(regs, mem, wire),
            ControllerRow::End => {
                self.end();
                HcStep::End
            }
        }
    }
}
