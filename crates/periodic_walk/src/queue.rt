ghost use Rattle.std.specs.Prelude.{◌≡◌, ◌%◌, Some};
ghost use Rattle.word_mem.specs.Access.{IsByController};
ghost use Rattle.link_words.specs.Links.{IsQtdAligned};
ghost use Rattle.qh_qtd.specs.Qtd.{IsQtdInRange};
ghost use Rattle.qh_qtd.specs.QueueHead.{IsQhInRange};
ghost use Rattle.hc_copy.specs.Visits.{IsHeld};
ghost use Rattle.hc_copy.specs.Planning.{CanBeMade};
ghost use Rattle.hc_interrupt.specs.Turns.{turn_of, planned};
ghost use Rattle.periodic_walk.specs.declared.state.Hand.TheVariants.{Queue};
ghost use Rattle.periodic_walk.specs.Place.{place, HasEffect};
ghost use Rattle.periodic_walk.specs.Queue.{IsSound, timed_row, take_row, turn_row, take_read, turn_read, took, took_step, visit_after, wrote, wrote_step, missed as missed_held, miss_outcome, queue_step, queue_sent, queue_effect, sent_step};
ghost use Rattle.periodic_walk.specs.Rows.{step_at, effect_at};

use crate::state::{Hand, HeldQueue, PeriodicState};
use async_walk::WalkStep;
use hc_copy::{Transaction, raise, read_out, take_qtd, write_back};
use hc_interrupt::{Turn, again, goes_on, missed, planned as next, transact, turn_in};
use hc_memory::HcMemory;
use link_words::QtdLink;
use mem_queues::read_qtd;
use op_registers::Registers;
use qh_qtd::{Qh, Qtd};
use toggle_error::Outcome;
use usb_base::{EndCause, Ps, Wire};

/// The kind of an event at a queue head in hand, with what it read.
#[derive(Clone, Copy, Debug, PartialEq, Eq)]
pub enum QueueRow {
    /// The qTD that comes next can't be read.
    Fault,
    /// There is nothing to do, or no time for it.
    Skip,
    /// It takes this qTD.
    Advance(u32, Qtd),
    /// Its transaction.
    Transact(Transaction),
    /// A microframe of its split transaction was missed, which is written back.
    Miss,
    /// What its transaction came to is written back.
    WriteBack(Outcome),
}

/// The row of a queue head that works.
fn work(queue_head: &Qh, left: Ps) -> QueueRow
    requires { IsQhInRange queue_head.now }
    ensures sound { IsSound result }
    ensures row { result ≡ timed_row left.0 (planned queue_head.now) }
{
    let transaction = next(queue_head);
    if transaction.price > left {
        return QueueRow::Skip;
    }
    QueueRow::Transact(transaction)
}

/// The row of a queue head that takes a qTD.
fn take_next<M: HcMemory>(link: QtdLink, mem: &mut M) -> QueueRow
    requires { IsQtdAligned link }
    ensures sound { IsSound result }
    ensures row { result ≡ take_row (M.mem mem.old) link }
    ensures memory { M.mem mem.new ≡ take_read (M.mem mem.old) link }
    ensures only_lent { IsByController (M.mem mem.old) (M.mem mem.new) }
{
    match link {
        QtdLink::End => QueueRow::Skip,
        QtdLink::To(at) => match read_qtd(mem, at) {
            None => QueueRow::Fault,
            Some(qtd) if qtd.token.active => QueueRow::Advance(at, qtd),
            Some(_) => QueueRow::Skip,
        },
    }
}

/// The row of a copy whose transaction wasn't made yet.
fn visited<M: HcMemory>(frindex: u16, queue_head: &Qh, left: Ps, mem: &mut M) -> QueueRow
    requires { IsQhInRange queue_head.now }
    ensures sound { IsSound result }
    ensures row { result ≡ turn_row (M.mem mem.old) left.0 queue_head.now (turn_of frindex queue_head.now) }
    ensures memory { M.mem mem.new ≡ turn_read (M.mem mem.old) (turn_of frindex queue_head.now) }
    ensures only_lent { IsByController (M.mem mem.old) (M.mem mem.new) }
{
    match turn_in(frindex, queue_head) {
        Turn::Rest => QueueRow::Skip,
        Turn::Work => work(queue_head, left),
        Turn::Miss => QueueRow::Miss,
        Turn::Take(link) => take_next(link, mem),
    }
}

impl PeriodicState {
    fn take<M: HcMemory>(
        &mut self,
        held: HeldQueue,
        at: u32,
        qtd: &Qtd,
        regs: &mut Registers,
        mem: &mut M,
    ) -> WalkStep
        requires held { IsHeld held.copy }
        requires aligned { at % 32 ≡ 0 }
        requires range { IsQtdInRange qtd.now }
        ensures step { result ≡ took_step held (M.mem mem.old) }
        ensures place { place self.new regs.new (M.mem mem.new) ≡ took held at qtd.now (place self.old regs.old (M.mem mem.old)) }
        ensures only_lent { IsByController (M.mem mem.old) (M.mem mem.new) }
    {
        let mut held = held;
        if take_qtd(&mut held.copy, at, qtd, mem) {
            self.hand = Some(Hand::Queue(held));
            return WalkStep::Advance;
        }
        self.fault(regs);
        WalkStep::Fault
    }

    /// The transaction, or the fault where a byte that it sends can't be read.
    fn transact_queue<W: Wire, M: HcMemory>(
        &mut self,
        held: HeldQueue,
        t: &Transaction,
        regs: &mut Registers,
        mem: &mut M,
        wire: &mut W,
    ) -> WalkStep
        requires held { IsHeld held.copy }
        requires can { CanBeMade t.now }
        ensures step { result ≡ sent_step t.now held (M.mem mem.old) }
        ensures row { HasEffect W.transacts (queue_sent t.now held (place self.old regs.old (M.mem mem.old))) wire.old
            (place self.new regs.new (M.mem mem.new)) wire.new }
        ensures only_lent { IsByController (M.mem mem.old) (M.mem mem.new) }
    {
        let mut held = held;
        let room = &mut self.out[..];
        let out = &mut room[..t.bytes as usize];
        if !read_out(mem, t, &held.copy.queue_head, out) {
            self.fault(regs);
            return WalkStep::Fault;
        }
        transact(wire, self.index, t, out, &mut held.copy, &mut self.reply);
        held.made = held.made.saturating_add(1);
        self.hand = Some(Hand::Queue(held));
        self.left = Ps(self.left.0.saturating_sub(t.price.0));
        WalkStep::Transact
    }

    /// The visit goes on with a further transaction, or is over.
    fn go_on(&mut self, held: HeldQueue, outcome: Outcome)
        requires { IsHeld held.copy }
        ensures { self.new ≡ visit_after held outcome self.old }
    {
        let mut held = held;
        if goes_on(held.made, &held.copy.queue_head, outcome) {
            again(&mut held.copy, outcome);
            self.hand = Some(Hand::Queue(held));
            return;
        }
        self.pass(held.copy.queue_head.link);
    }

    fn write_queue<M: HcMemory>(
        &mut self,
        held: HeldQueue,
        outcome: Outcome,
        regs: &mut Registers,
        mem: &mut M,
    ) -> WalkStep
        requires { IsHeld held.copy }
        ensures step { result ≡ wrote_step held outcome (place self.old regs.old (M.mem mem.old)) }
        ensures place { place self.new regs.new (M.mem mem.new) ≡ wrote held outcome (place self.old regs.old (M.mem mem.old)) }
        ensures only_lent { IsByController (M.mem mem.old) (M.mem mem.new) }
    {
        let queue_head = &held.copy.queue_head;
        if !write_back(mem, held.copy.at, queue_head, outcome, &self.reply) {
            self.fault(regs);
            return WalkStep::Fault;
        }
        raise(regs, queue_head, outcome);
        self.go_on(held, outcome);
        WalkStep::WriteBack
    }

    fn miss_queue<M: HcMemory>(
        &mut self,
        held: HeldQueue,
        regs: &mut Registers,
        mem: &mut M,
    ) -> WalkStep
        requires { IsHeld held.copy }
        ensures step { result ≡ wrote_step (missed_held held) miss_outcome (place self.old regs.old (M.mem mem.old)) }
        ensures place { place self.new regs.new (M.mem mem.new)
            ≡ wrote (missed_held held) miss_outcome (place self.old regs.old (M.mem mem.old)) }
        ensures only_lent { IsByController (M.mem mem.old) (M.mem mem.new) }
    {
        let mut held = held;
        missed(&mut held.copy);
        self.write_queue(held, Outcome::Halt(EndCause::Miss), regs, mem)
    }

    /// The event of this row.
    fn make_queue<W: Wire, M: HcMemory>(
        &mut self,
        row: QueueRow,
        held: HeldQueue,
        regs: &mut Registers,
        mem: &mut M,
        wire: &mut W,
    ) -> WalkStep
        requires held { IsHeld held.copy }
        requires sound { IsSound row }
        ensures step { result ≡ queue_step row held (place self.old regs.old (M.mem mem.old)) }
        ensures row { HasEffect W.transacts (queue_effect row held (place self.old regs.old (M.mem mem.old))) wire.old
            (place self.new regs.new (M.mem mem.new)) wire.new }
        ensures only_lent { IsByController (M.mem mem.old) (M.mem mem.new) }
    {
        match row {
            QueueRow::Fault => {
                self.fault(regs);
                WalkStep::Fault
            }
            QueueRow::Skip => {
                self.pass(held.copy.queue_head.link);
                WalkStep::Skip
            }
            QueueRow::Advance(at, qtd) => self.take(held, at, &qtd, regs, mem),
            QueueRow::Transact(transaction) => self.transact_queue(
                held,
                &transaction,
                regs,
                mem,
                wire,
            ),
            QueueRow::Miss => self.miss_queue(held, regs, mem),
            QueueRow::WriteBack(outcome) => self.write_queue(held, outcome, regs, mem),
        }
    }

    /// The event of a walk with a queue head in hand.
    pub(crate) fn visit_queue<W: Wire, M: HcMemory>(
        &mut self,
        held: HeldQueue,
        regs: &mut Registers,
        mem: &mut M,
        wire: &mut W,
    ) -> WalkStep
        requires { IsHeld held.copy }
        ensures step { result ≡ step_at (place self.old regs.old (M.mem mem.old)) (Some (Queue held)) }
        ensures row { HasEffect W.transacts (effect_at (place self.old regs.old (M.mem mem.old)) (Some (Queue held))) wire.old
            (place self.new regs.new (M.mem mem.new)) wire.new }
        ensures only_lent { IsByController (M.mem mem.old) (M.mem mem.new) }
    {
        match held.copy.settled {
            None => {
                let row = visited(self.index, &held.copy.queue_head, self.left, mem);
                self.make_queue(row, held, regs, mem, wire)
            }
            Some(outcome) => self.write_queue(held, outcome, regs, mem),
        }
    }
}
