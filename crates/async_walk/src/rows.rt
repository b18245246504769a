ghost use Rattle.std.specs.Prelude.{◌≡◌, nat_lt};
ghost use Rattle.word_mem.specs.Access.{IsByController};
ghost use Rattle.link_words.specs.Links.{IsAligned, IsQtdAligned};
ghost use Rattle.qh_qtd.specs.QueueHead.{IsQhInRange};
ghost use Rattle.hc_copy.specs.Visits.{visit_of};
ghost use Rattle.async_walk.specs.Naks.{may_work, planned};
ghost use Rattle.async_walk.specs.Rows.{ring_row, work_row, take_row, visit_row, ring_read, take_read, visit_read, IsSound};

use crate::naks::{kind, may};
use hc_copy::{Transaction, Visit, next_transaction, visit};
use hc_memory::HcMemory;
use link_words::{Link, QtdLink};
use mem_queues::{read_qtd, read_queue_head};
use qh_qtd::{Qh, Qtd};
use usb_base::Ps;

/// The kind of an event, with what it read.
#[derive(Clone, Copy, Debug, PartialEq, Eq)]
pub enum WalkRow {
    /// The walk can't go on.
    Fault,
    /// The head of the ring was read, and nothing was done since it was read before: the part is over.
    HeadEnds,
    /// A queue head was read.
    Fetch(u32, Qh),
    /// There is nothing to do at the queue head in hand.
    Skip,
    /// The next transaction takes more time than is left: the part is over.
    OutOfTime,
    /// The queue head in hand takes this qTD.
    Advance(u32, Qtd),
    /// The transaction of the queue head in hand.
    Transact(Transaction),
    /// The transaction of the queue head in hand is written back.
    WriteBack,
}

/// The row of a queue head that works.
#[inline(always)]
fn work(queue_head: &Qh, left: Ps) -> WalkRow
    requires { IsQhInRange queue_head.now }
    ensures sound { IsSound result }
    ensures row { result ≡ work_row (nat_lt left.0 (planned queue_head.now).price.0) (planned queue_head.now) }
{
    let transaction = next_transaction(queue_head, kind(queue_head));
    // A transaction must not cross the end of the microframe (EHCI 1.0, 4.4.1).
    if transaction.price > left {
        return WalkRow::OutOfTime;
    }
    WalkRow::Transact(transaction)
}

/// The row of a queue head that takes a qTD.
fn take_row_of<M: HcMemory>(link: QtdLink, mem: &mut M) -> WalkRow
    requires { IsQtdAligned link }
    ensures sound { IsSound result }
    ensures row { result ≡ take_row (M.mem mem.old) link }
    ensures memory { M.mem mem.new ≡ take_read (M.mem mem.old) link }
    ensures only_lent { IsByController (M.mem mem.old) (M.mem mem.new) }
{
    match link {
        // The queue is empty, so its overlay stays as it is (EHCI 1.0, 4.10.2).
        QtdLink::End => WalkRow::Skip,
        QtdLink::To(at) => match read_qtd(mem, at) {
            // The word isn't lent: a host system error (EHCI 1.0, 4.15.2.4).
            None => WalkRow::Fault,
            // Only an active qTD comes into the overlay (EHCI 1.0, 4.10.2).
            Some(qtd) if qtd.token.active => WalkRow::Advance(at, qtd),
            // The driver hasn't given this qTD yet (EHCI 1.0, 4.10.2).
            Some(_) => WalkRow::Skip,
        },
    }
}

/// The row of a copy whose transaction wasn't made yet.
pub(crate) fn visited<M: HcMemory>(queue_head: &Qh, left: Ps, mem: &mut M) -> WalkRow
    requires { IsQhInRange queue_head.now }
    ensures sound { IsSound result }
    ensures row { result ≡ visit_row (M.mem mem.old) left.0 queue_head.now (visit_of (may_work queue_head.now) queue_head.now) }
    ensures memory { M.mem mem.new ≡ visit_read (M.mem mem.old) (visit_of (may_work queue_head.now) queue_head.now) }
    ensures only_lent { IsByController (M.mem mem.old) (M.mem mem.new) }
{
    match visit(queue_head, may(queue_head)) {
        // Halted, or with a NAK count of 0: the next queue head comes (EHCI 1.0, 4.9 and 4.10.3).
        Visit::Rest => WalkRow::Skip,
        // The overlay is active, so its transaction comes before any other qTD (EHCI 1.0, 4.10.3).
        Visit::Work => work(queue_head, left),
        // The overlay is done, so the queue is advanced (EHCI 1.0, 4.10.2).
        Visit::Take(link) => take_row_of(link, mem),
    }
}

/// The row of a cursor at this link, where no copy is in hand.
pub(crate) fn fetched<M: HcMemory>(link: Link, reclamation: bool, mem: &mut M) -> WalkRow
    requires { IsAligned link }
    ensures sound { IsSound result }
    ensures row { result ≡ ring_row (M.mem mem.old) reclamation link }
    ensures memory { M.mem mem.new ≡ ring_read (M.mem mem.old) link }
    ensures only_lent { IsByController (M.mem mem.old) (M.mem mem.new) }
{
    match link {
        Link::Qh(at) => match read_queue_head(mem, at) {
            // The word isn't lent: a host system error (EHCI 1.0, 4.15.2.4).
            None => WalkRow::Fault,
            // The head again, and no transaction since it was left: the schedule is empty (EHCI 1.0, 4.8.3).
            Some(queue_head) if queue_head.head && !reclamation => WalkRow::HeadEnds,
            // Each read of a queue head is an event, also of one that has nothing to do (EHCI 1.0, 4.10.1).
            Some(queue_head) => WalkRow::Fetch(at, queue_head),
        },
        // The ring has queue heads alone (EHCI 1.0, 4.8).
        _ => WalkRow::Fault,
    }
}
