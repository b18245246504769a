ghost use Rattle.std.specs.Prelude.{◌≡◌, ◌≤◌, ◌%◌, length};
ghost use Rattle.word_mem.specs.Access.{IsByController};
ghost use Rattle.qh_qtd.specs.Qtd.{IsQtdInRange};
ghost use Rattle.qh_qtd.specs.QueueHead.{IsQhInRange};
ghost use Rattle.mem_queues.specs.Structures.{reaches_queue_head};
ghost use Rattle.hc_copy.specs.Visits.{IsHeld};
ghost use Rattle.hc_copy.specs.Overlay.{buffer_place, pages_of, advanced as advanced_queue};
ghost use Rattle.hc_copy.specs.Buffer.{Writing, bytes_written};
ghost use Rattle.hc_copy.specs.WriteBack.{received as received_bytes, moved_by, token_back, written_back, is_short, is_error, interrupts, raised, overlay_after};

use crate::buffer::store_bytes;
use crate::held::Held;
use crate::overlay::{advanced, moved};
use crate::planning::pid_of;
use hc_memory::HcMemory;
use mem_queues::{write_overlay, write_token};
use op_registers::{Registers, Status};
use qh_qtd::{Qh, Qtd};
use toggle_error::Outcome;
use transactions::received;
use usb_base::Reply;

/// Writes received bytes to the place that the queue head tells. False: one of them has no place, or may not be touched; the bytes before
/// it are written.
fn write_bytes<M: HcMemory>(mem: &mut M, queue_head: &Qh, got: &[u8]) -> bool
    requires range { IsQhInRange queue_head.now }
    requires size { length got.now ≤ 1024 }
    ensures written { record { memory = M.mem mem.new; all = result }
        ≡ bytes_written (pages_of queue_head.now) (buffer_place queue_head.now) got.now (M.mem mem.old) }
    ensures only_lent { IsByController (M.mem mem.old) (M.mem mem.new) }
{
    let pages = [
        queue_head.page0,
        queue_head.page1,
        queue_head.page2,
        queue_head.page3,
        queue_head.page4,
    ];
    let from = queue_head.token.c_page as u32 * 4096 + queue_head.offset as u32;
    store_bytes(mem, &pages, from, got)
}

/// Writes the token of the current qTD where it isn't active any more. False: it may not be touched.
fn write_done<M: HcMemory>(mem: &mut M, queue_head: &Qh) -> bool
    requires range { IsQhInRange queue_head.now }
    ensures written { record { memory = M.mem mem.new; all = result } ≡ token_back queue_head.now (M.mem mem.old) }
    ensures only_lent { IsByController (M.mem mem.old) (M.mem mem.new) }
{
    if queue_head.token.active {
        return true;
    }
    write_token(mem, queue_head.current, &queue_head.token)
}

/// Writes words 3 to 11 of the queue head at `at`. False: they may not all be touched; those of a first block that may be are written.
#[tactic(auto, unfolding(crate::specs::WriteBack::overlay_after))]
#[inline(always)]
fn write_queue<M: HcMemory>(mem: &mut M, at: u32, queue_head: &Qh) -> bool
    requires aligned { at % 32 ≡ 0 }
    requires range { IsQhInRange queue_head.now }
    ensures written { result ≡ reaches_queue_head (M.mem mem.old) at }
    ensures memory { M.mem mem.new ≡ overlay_after (M.mem mem.old) at queue_head.now }
    ensures only_lent { IsByController (M.mem mem.old) (M.mem mem.new) }
{
    write_overlay(mem, at, queue_head)
}

/// The copy takes the qTD at `at`, and its words 3 to 11 are written (EHCI 1.0, 4.10.2). False: they may not all be touched.
pub fn take_qtd<M: HcMemory>(held: &mut Held, at: u32, qtd: &Qtd, mem: &mut M) -> bool
    requires held { IsHeld held.old }
    requires aligned { at % 32 ≡ 0 }
    requires range { IsQtdInRange qtd.now }
    ensures copy { held.new ≡ record held.old { queue_head = advanced_queue held.old.queue_head at qtd.now } }
    ensures held { IsHeld held.new }
    ensures written { result ≡ reaches_queue_head (M.mem mem.old) held.old.at }
    ensures memory { M.mem mem.new ≡ overlay_after (M.mem mem.old) held.old.at (advanced_queue held.old.queue_head at qtd.now) }
    ensures only_lent { IsByController (M.mem mem.old) (M.mem mem.new) }
{
    held.queue_head = advanced(&held.queue_head, at, qtd);
    write_queue(mem, held.at, &held.queue_head)
}

/// How many bytes a transaction moved.
fn count(outcome: Outcome) -> u16
    ensures { result ≡ moved_by outcome }
{
    match outcome {
        Outcome::Moved(bytes) => bytes,
        _ => 0,
    }
}

/// Writes the bytes, the overlay and the token.
#[tactic(auto, unfolding(crate::specs::WriteBack::written_back))]
fn write_all<M: HcMemory>(
    mem: &mut M,
    at: u32,
    queue_head: &Qh,
    outcome: Outcome,
    got: &[u8],
) -> bool
    requires aligned { at % 32 ≡ 0 }
    requires range { IsQhInRange queue_head.now }
    requires size { length got.now ≤ 1024 }
    ensures written { record { memory = M.mem mem.new; all = result } ≡ written_back at queue_head.now outcome got.now (M.mem mem.old) }
    ensures only_lent { IsByController (M.mem mem.old) (M.mem mem.new) }
{
    let new = moved(queue_head, count(outcome));
    write_bytes(mem, queue_head, got) && write_queue(mem, at, &new) && write_done(mem, &new)
}

/// Writes back what the transaction of the queue head at `at` came to, which `reply` answered: the bytes received, words 3 to 11, and where
/// the qTD isn't active any more its token (EHCI 1.0, 4.10.4). False: something may not be touched, or a byte has no place; what comes
/// before it is written.
#[inline(never)]
pub fn write_back<M: HcMemory>(
    mem: &mut M,
    at: u32,
    queue_head: &Qh,
    outcome: Outcome,
    reply: &Reply,
) -> bool
    requires aligned { at % 32 ≡ 0 }
    requires range { IsQhInRange queue_head.now }
    ensures written { record { memory = M.mem mem.new; all = result }
        ≡ written_back at queue_head.now outcome (received_bytes queue_head.now outcome reply.now) (M.mem mem.old) }
    ensures only_lent { IsByController (M.mem mem.old) (M.mem mem.new) }
{
    let got = received(pid_of(queue_head.token.pid), outcome, reply);
    write_all(mem, at, queue_head, outcome, got)
}

/// Whether an IN brought fewer bytes than a packet holds.
fn short(queue_head: &Qh, outcome: Outcome) -> bool
    ensures { result ≡ is_short queue_head.now outcome }
{
    match outcome {
        Outcome::Moved(bytes) => queue_head.token.pid == 1 && bytes < queue_head.max,
        _ => false,
    }
}

fn failed(outcome: Outcome) -> bool
    ensures { result ≡ is_error outcome }
{
    match outcome {
        Outcome::Error | Outcome::Halt(_) => true,
        _ => false,
    }
}

fn interrupting(queue_head: &Qh, outcome: Outcome) -> bool
    ensures { result ≡ interrupts queue_head.now outcome }
{
    !queue_head.token.active && (queue_head.token.ioc || short(queue_head, outcome))
}

/// Raises what the transaction of a queue head calls for, once it is written back (EHCI 1.0, 4.15.1).
#[tactic(auto, unfolding(crate::specs::WriteBack::raised))]
pub fn raise(regs: &mut Registers, queue_head: &Qh, outcome: Outcome)
    ensures { regs.new ≡ raised queue_head.now outcome regs.old }
{
    if interrupting(queue_head, outcome) {
        regs.raise(Status::INTERRUPT);
    }
    if failed(outcome) {
        regs.raise(Status::ERROR);
    }
}
