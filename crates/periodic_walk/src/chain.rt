ghost use Rattle.std.specs.Prelude.{◌≡◌, ◌%◌};
ghost use Rattle.word_mem.specs.Access.{IsByController};
ghost use Rattle.link_words.specs.Links.{IsAligned};
ghost use Rattle.qh_qtd.specs.QueueHead.{IsQhInRange};
ghost use Rattle.itd_sitd.specs.Itd.{IsItdInRange};
ghost use Rattle.itd_sitd.specs.Sitd.{IsSitdInRange};
ghost use Rattle.periodic_walk.specs.Place.{place};
ghost use Rattle.periodic_walk.specs.Chain.{IsSound, chain_row, chain_read, fetched_queue, fetched_itd_walk, fetched_sitd, chain_walk, chain_registers, chain_after, chain_step};

use crate::state::{Hand, HeldQueue, PeriodicState};
use async_walk::WalkStep;
use hc_copy::Held;
use hc_interrupt::microframe;
use hc_iso::{HeldItd, HeldSitd};
use hc_memory::HcMemory;
use itd_sitd::{Itd, Sitd};
use link_words::Link;
use mem_descriptors::{read_itd, read_sitd};
use mem_queues::read_queue_head;
use op_registers::Registers;
use qh_qtd::Qh;

/// What the cursor's link leads to, with what was read there.
#[derive(Clone, Copy, Debug, PartialEq, Eq)]
pub enum ChainRow {
    /// Nothing that the walk can go on from.
    Fault,
    /// The chain ends.
    Ends,
    /// A queue head.
    Queue(u32, Qh),
    /// An isochronous transfer descriptor.
    Itd(u32, Itd),
    /// A split-transaction isochronous transfer descriptor.
    Sitd(u32, Sitd),
}

fn fetch_queue<M: HcMemory>(at: u32, mem: &mut M) -> ChainRow
    requires { at % 32 ≡ 0 }
    ensures sound { IsSound result }
    ensures row { result ≡ chain_row (M.mem mem.old) (Link.Qh at) }
    ensures memory { M.mem mem.new ≡ chain_read (M.mem mem.old) (Link.Qh at) }
    ensures only_lent { IsByController (M.mem mem.old) (M.mem mem.new) }
{
    match read_queue_head(mem, at) {
        None => ChainRow::Fault,
        Some(queue_head) => ChainRow::Queue(at, queue_head),
    }
}

fn fetch_itd<M: HcMemory>(at: u32, mem: &mut M) -> ChainRow
    requires { at % 32 ≡ 0 }
    ensures sound { IsSound result }
    ensures row { result ≡ chain_row (M.mem mem.old) (Link.Itd at) }
    ensures memory { M.mem mem.new ≡ chain_read (M.mem mem.old) (Link.Itd at) }
    ensures only_lent { IsByController (M.mem mem.old) (M.mem mem.new) }
{
    match read_itd(mem, at) {
        None => ChainRow::Fault,
        Some(itd) => ChainRow::Itd(at, itd),
    }
}

fn fetch_sitd<M: HcMemory>(at: u32, mem: &mut M) -> ChainRow
    requires { at % 32 ≡ 0 }
    ensures sound { IsSound result }
    ensures row { result ≡ chain_row (M.mem mem.old) (Link.Sitd at) }
    ensures memory { M.mem mem.new ≡ chain_read (M.mem mem.old) (Link.Sitd at) }
    ensures only_lent { IsByController (M.mem mem.old) (M.mem mem.new) }
{
    match read_sitd(mem, at) {
        None => ChainRow::Fault,
        Some(sitd) => ChainRow::Sitd(at, sitd),
    }
}

/// The row of a cursor at this link, where no copy is in hand.
fn fetched<M: HcMemory>(link: Link, mem: &mut M) -> ChainRow
    requires { IsAligned link }
    ensures sound { IsSound result }
    ensures row { result ≡ chain_row (M.mem mem.old) link }
    ensures memory { M.mem mem.new ≡ chain_read (M.mem mem.old) link }
    ensures only_lent { IsByController (M.mem mem.old) (M.mem mem.new) }
{
    match link {
        Link::End => ChainRow::Ends,
        Link::Qh(at) => fetch_queue(at, mem),
        Link::Itd(at) => fetch_itd(at, mem),
        Link::Sitd(at) => fetch_sitd(at, mem),
        Link::Fstn(_) => ChainRow::Fault,
    }
}

impl PeriodicState {
    fn hold_queue(&mut self, at: u32, queue_head: Qh)
        requires aligned { at % 32 ≡ 0 }
        requires range { IsQhInRange queue_head }
        ensures { self.new ≡ fetched_queue at queue_head self.old }
    {
        let copy = Held {
            at,
            queue_head,
            settled: None,
        };
        self.cursor = Link::Qh(at);
        self.hand = Some(Hand::Queue(HeldQueue { copy, made: 0 }));
    }

    fn hold_itd(&mut self, at: u32, itd: &Itd)
        requires aligned { at % 32 ≡ 0 }
        requires range { IsItdInRange itd.now }
        ensures { self.new ≡ fetched_itd_walk at itd.now self.old }
    {
        self.cursor = Link::Itd(at);
        self.hand = Some(Hand::Itd(HeldItd::fetched(at, microframe(self.index), itd)));
        self.got.clear();
    }

    fn hold_sitd(&mut self, at: u32, sitd: Sitd)
        requires aligned { at % 32 ≡ 0 }
        requires range { IsSitdInRange sitd }
        ensures { self.new ≡ fetched_sitd at sitd self.old }
    {
        self.cursor = Link::Sitd(at);
        self.hand = Some(Hand::Sitd(HeldSitd {
            at,
            sitd,
            settled: None,
        }));
    }

    /// The event of this row.
    fn reach(&mut self, row: ChainRow, regs: &mut Registers) -> WalkStep
        requires { IsSound row }
        ensures step { result ≡ chain_step row }
        ensures walk { self.new ≡ chain_walk row self.old }
        ensures registers { regs.new ≡ chain_registers row regs.old }
    {
        match row {
            ChainRow::Fault => {
                self.fault(regs);
                WalkStep::Fault
            }
            ChainRow::Ends => {
                self.stop();
                WalkStep::Ended
            }
            ChainRow::Queue(at, queue_head) => {
                self.hold_queue(at, queue_head);
                WalkStep::Fetch
            }
            ChainRow::Itd(at, itd) => {
                self.hold_itd(at, &itd);
                WalkStep::Fetch
            }
            ChainRow::Sitd(at, sitd) => {
                self.hold_sitd(at, sitd);
                WalkStep::Fetch
            }
        }
    }

    /// The event of a walk with no copy in hand.
    pub(crate) fn fetch<M: HcMemory>(&mut self, regs: &mut Registers, mem: &mut M) -> WalkStep
        ensures step { result ≡ chain_step (chain_row (M.mem mem.old) self.old.cursor) }
        ensures place { place self.new regs.new (M.mem mem.new)
            ≡ chain_after (chain_row (M.mem mem.old) self.old.cursor)
            (place self.old regs.old (chain_read (M.mem mem.old) self.old.cursor)) }
        ensures only_lent { IsByController (M.mem mem.old) (M.mem mem.new) }
    {
        let row = fetched(self.cursor, mem);
        self.reach(row, regs)
    }
}
