ghost use Rattle.std.specs.Prelude.{◌≡◌, ◌↔◌, ◌%◌};
ghost use Rattle.word_mem.specs.Memory.{Mem};
ghost use Rattle.word_mem.specs.Access.{IsByController};
ghost use Rattle.link_words.specs.Links.{IsAligned};
ghost use Rattle.op_registers.specs.Events.{after_fault};
ghost use Rattle.qh_qtd.specs.Qtd.{IsQtdInRange};
ghost use Rattle.qh_qtd.specs.QueueHead.{IsQhInRange};
ghost use Rattle.hc_copy.specs.Planning.{CanBeMade};
ghost use Rattle.async_walk.specs.Walk.{stopped};
ghost use Rattle.async_walk.specs.Rows.{WalkPlace, place, cursor_link, IsSound, started_walk, started_registers, head_read, restarted, fetched_registers, fetched_walk, passed_walk, took, took_step, wrote, wrote_step, sent_step, Sends, Leads, step_of, started, at_event, event_row};
ghost use Rattle.async_walk.specs.Causes.{HasReason, HasNothing, IsStuck, IsWorked, AreRefusalsFaults};

use crate::naks::{count, mode_of, reloaded};
use crate::rows::{WalkRow, fetched, visited};
use crate::state::{AsyncState, Cursor, ReloadMode, WalkStep};
use hc_copy::{Held, Transaction, raise, read_out, take_qtd, transact, write_back};
use hc_memory::HcMemory;
use link_words::Link;
use op_registers::Registers;
use qh_qtd::{Qh, Qtd};
use usb_base::{Ps, Wire};

/// Answers the doorbell where the head of the ring was read.
fn read_head(regs: &mut Registers)
    ensures { regs.new ≡ head_read regs.old }
{
    if regs.rung() {
        regs.advance();
    }
}

/// What reading a queue head does to the registers.
fn read_queue(regs: &mut Registers, head: bool)
    ensures { regs.new ≡ fetched_registers head regs.old }
{
    if head {
        regs.set_reclamation(false);
        read_head(regs);
    }
}

impl AsyncState {
    /// The first event of a microframe sets Reclamation and the reload mode.
    fn start(&mut self, regs: &mut Registers)
        ensures walk { self.new ≡ started_walk self.old }
        ensures registers { regs.new ≡ started_registers self.old.first regs.old }
    {
        if self.first {
            self.first = false;
            self.mode = ReloadMode::WaitHead;
            regs.set_reclamation(true);
        }
    }

    /// The link of the cursor.
    fn link(&self, regs: &Registers) -> Link
        ensures link { result ≡ cursor_link regs.now self.now.cursor }
        ensures aligned { IsAligned result }
    {
        match self.cursor {
            Cursor::Start => Link::Qh(regs.async_list_address()),
            Cursor::At(link) => link,
        }
    }

    fn fault(&mut self, regs: &mut Registers)
        ensures walk { self.new ≡ stopped self.old }
        ensures registers { regs.new ≡ after_fault regs.old }
    {
        self.held = None;
        regs.fault();
    }

    fn end_at_head(&mut self, regs: &mut Registers)
        ensures walk { self.new ≡ restarted self.old }
        ensures registers { regs.new ≡ head_read regs.old }
    {
        self.cursor = Cursor::Start;
        read_head(regs);
    }

    #[inline(always)]
    fn fetch(&mut self, at: u32, queue_head: Qh, regs: &mut Registers)
        requires aligned { at % 32 ≡ 0 }
        requires range { IsQhInRange queue_head }
        ensures walk { self.new ≡ fetched_walk at queue_head self.old }
        ensures registers { regs.new ≡ fetched_registers queue_head.head regs.old }
    {
        self.mode = mode_of(&queue_head, self.mode);
        self.cursor = Cursor::At(Link::Qh(at));
        self.held = Some(Held {
            at,
            queue_head: reloaded(queue_head, self.mode),
            settled: None,
        });
        read_queue(regs, queue_head.head);
    }

    fn pass(&mut self)
        ensures { self.new ≡ passed_walk self.old self.old.held }
    {
        if let Some(held) = &self.held {
            self.cursor = Cursor::At(Link::from(held.queue_head.link));
            self.held = None;
        }
    }

    fn take<M: HcMemory>(
        &mut self,
        at: u32,
        qtd: &Qtd,
        regs: &mut Registers,
        mem: &mut M,
    ) -> WalkStep
        requires aligned { at % 32 ≡ 0 }
        requires range { IsQtdInRange qtd.now }
        ensures step { result ≡ took_step (M.mem mem.old) self.old.held }
        ensures place { place self.new regs.new (M.mem mem.new) ≡ took at qtd.now (place self.old regs.old (M.mem mem.old)) self.old.held }
        ensures only_lent { IsByController (M.mem mem.old) (M.mem mem.new) }
    {
        let Some(held) = &mut self.held else {
            return WalkStep::Advance;
        };
        if take_qtd(held, at, qtd, mem) {
            return WalkStep::Advance;
        }
        self.fault(regs);
        WalkStep::Fault
    }

    fn end_for_time(&mut self)
        ensures { self.new ≡ stopped self.old }
    {
        self.held = None;
    }

    /// The transaction, or the fault where a byte that it sends can't be read.
    fn transact<W: Wire, M: HcMemory>(
        &mut self,
        t: &Transaction,
        regs: &mut Registers,
        mem: &mut M,
        wire: &mut W,
    ) -> WalkStep
        requires { CanBeMade t.now }
        ensures step { result ≡ sent_step t.now (M.mem mem.old) self.old.held }
        ensures row { Sends W.transacts t.now (place self.old regs.old (M.mem mem.old)) self.old.held wire.old
            (place self.new regs.new (M.mem mem.new)) wire.new }
        ensures only_lent { IsByController (M.mem mem.old) (M.mem mem.new) }
    {
        let Some(held) = &mut self.held else {
            return WalkStep::Transact;
        };
        let room = &mut self.out[..];
        let out = &mut room[..t.bytes as usize];
        if !read_out(mem, t, &held.queue_head, out) {
            self.fault(regs);
            return WalkStep::Fault;
        }
        let outcome = transact(wire, t, false, out, held, &mut self.reply);
        count(held, outcome, &self.reply);
        regs.set_reclamation(true);
        self.left = Ps(self.left.0.saturating_sub(t.price.0));
        WalkStep::Transact
    }

    fn write<M: HcMemory>(&mut self, regs: &mut Registers, mem: &mut M) -> WalkStep
        ensures step { result ≡ wrote_step (place self.old regs.old (M.mem mem.old)) self.old.held }
        ensures place { place self.new regs.new (M.mem mem.new) ≡ wrote (place self.old regs.old (M.mem mem.old)) self.old.held }
        ensures only_lent { IsByController (M.mem mem.old) (M.mem mem.new) }
    {
        let Some(held) = &self.held else {
            return WalkStep::WriteBack;
        };
        let Some(outcome) = held.settled else {
            return WalkStep::WriteBack;
        };
        if !write_back(mem, held.at, &held.queue_head, outcome, &self.reply) {
            self.fault(regs);
            return WalkStep::Fault;
        }
        raise(regs, &held.queue_head, outcome);
        self.pass();
        WalkStep::WriteBack
    }

    /// Makes an event of this kind.
    #[inline(always)]
    fn make<W: Wire, M: HcMemory>(
        &mut self,
        row: WalkRow,
        regs: &mut Registers,
        mem: &mut M,
        wire: &mut W,
    ) -> WalkStep
        requires { IsSound row }
        ensures kind { result ≡ step_of row (place self.old regs.old (M.mem mem.old)) }
        ensures row { Leads W.transacts row (place self.old regs.old (M.mem mem.old)) wire.old (place self.new regs.new (M.mem mem.new))
            wire.new }
        ensures only_lent { IsByController (M.mem mem.old) (M.mem mem.new) }
    {
        match row {
            WalkRow::Fault => {
                self.fault(regs);
                WalkStep::Fault
            }
            WalkRow::HeadEnds => {
                self.end_at_head(regs);
                WalkStep::Ended
            }
            WalkRow::Fetch(at, queue_head) => {
                self.fetch(at, queue_head, regs);
                WalkStep::Fetch
            }
            WalkRow::Skip => {
                self.pass();
                WalkStep::Skip
            }
            WalkRow::OutOfTime => {
                self.end_for_time();
                WalkStep::Ended
            }
            WalkRow::Advance(at, qtd) => self.take(at, &qtd, regs, mem),
            WalkRow::Transact(transaction) => self.transact(&transaction, regs, mem, wire),
            WalkRow::WriteBack => self.write(regs, mem),
        }
    }
}

/// Makes one event; each kind of copy in hand makes its own row, so that a row's value is no larger than that kind needs.
#[inline(always)]
fn turn<W: Wire, M: HcMemory>(
    st: &mut AsyncState,
    regs: &mut Registers,
    mem: &mut M,
    wire: &mut W,
) -> WalkStep
    ensures kind { result ≡ step_of (event_row (place st.old regs.old (M.mem mem.old))) (at_event (place st.old regs.old (M.mem mem.old))) }
    ensures row { Leads W.transacts (event_row (place st.old regs.old (M.mem mem.old))) (at_event (place st.old regs.old (M.mem mem.old)))
        wire.old (place st.new regs.new (M.mem mem.new)) wire.new }
    ensures only_lent { IsByController (M.mem mem.old) (M.mem mem.new) }
{
    st.start(regs);
    match &st.held {
        None => {
            let row = fetched(st.link(regs), regs.reclamation(), mem);
            st.make(row, regs, mem, wire)
        }
        Some(held) => match &held.settled {
            None => {
                let row = visited(&held.queue_head, st.left, mem);
                st.make(row, regs, mem, wire)
            }
            Some(_) => st.make(WalkRow::WriteBack, regs, mem, wire),
        },
    }
}

/// Makes one event of the asynchronous part of a microframe, over whatever registers, words and wire it is lent (EHCI 1.0, 4.8 to 4.12).
///
/// - `Ended`: the head of the ring was read with Reclamation 0, or the price of the next transaction passes the time left.
/// - `Skip`: there is nothing to do at the queue head in hand. It is halted, its NAKs are used up, or no active qTD comes next.
/// - `Fault`: the cursor's link leads to no queue head, or a queue's link to no qTD; or a word or byte that would be read or written lies
///   past the last page or isn't Lent. Then Host System Error stands and Run is 0.
/// - Else it makes a Fetch, an Advance, a Transact or a WriteBack. A queue head below a translator has start-splits and complete-splits.
#[tactic(auto, using(crate::proofs::Steps::ends_for_a_reason, crate::proofs::Steps::ends_for_each_reason, crate::proofs::Steps::skips_for_a_reason, crate::proofs::Steps::skips_for_each_reason, crate::proofs::Steps::faults_for_a_reason, crate::proofs::Steps::faults_for_each_reason))]
pub fn step<W: Wire, M: HcMemory>(
    st: &mut AsyncState,
    regs: &mut Registers,
    mem: &mut M,
    wire: &mut W,
) -> WalkStep
    ensures kind { result ≡ step_of (event_row (place st.old regs.old (M.mem mem.old))) (at_event (place st.old regs.old (M.mem mem.old))) }
    ensures row { Leads W.transacts (event_row (place st.old regs.old (M.mem mem.old))) (at_event (place st.old regs.old (M.mem mem.old)))
        wire.old (place st.new regs.new (M.mem mem.new)) wire.new }
    ensures only_lent { IsByController (M.mem mem.old) (M.mem mem.new) }
    ensures ends { (result ≡ WalkStep.Ended) ↔ HasReason (started (place st.old regs.old (M.mem mem.old))) }
    ensures skips { (result ≡ WalkStep.Skip) ↔ HasNothing (started (place st.old regs.old (M.mem mem.old))) }
    ensures faults { (result ≡ WalkStep.Fault) ↔ IsStuck (started (place st.old regs.old (M.mem mem.old))) }
    ensures works { IsWorked (place st.old regs.old (M.mem mem.old)) result }
    ensures refused { AreRefusalsFaults (M.mem mem.old) (M.mem mem.new) regs.new }
{
    turn(st, regs, mem, wire)
}
