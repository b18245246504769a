ghost use Rattle.std.specs.Prelude.{◌≡◌, ◌<◌, length};
ghost use Rattle.qh_qtd.specs.QueueHead.{IsQhInRange};
ghost use Rattle.hc_copy.specs.Visits.{IsHeld};
ghost use Rattle.hc_copy.specs.Planning.{CanBeMade};
ghost use Rattle.hc_copy.specs.Overlay.{moved as moved_queue};
ghost use Rattle.hc_copy.specs.Transacting.{call_in, outcome_in};
ghost use Rattle.hc_copy.specs.WriteBack.{moved_by};
ghost use Rattle.hc_interrupt.specs.Turns.{is_last_of};
ghost use Rattle.hc_interrupt.specs.Copies.{with_split, interrupt_copy, missed_queue, missed_copy, is_full, failed as has_failed, goes_on as is_going_on, again_copy};

use crate::frames::{frame_tag, microframe};
use hc_copy::{Held, Transaction};
use hc_masks::{is_last, with};
use qh_qtd::{Qh, Token};
use toggle_error::Outcome;
use usb_base::{EndCause, Reply, Split, Wire};

/// The queue head with what its split transaction is at.
#[tactic(auto, using(crate::proofs::Ranges::split_in_range), unfolding(crate::specs::Copies::with_split))]
fn splitting(frindex: u16, split: &Split, queue_head: &Qh) -> Qh
    requires { IsQhInRange queue_head.now }
    ensures copy { result ≡ with_split frindex split.now queue_head.now }
    ensures range { IsQhInRange result }
{
    match split {
        Split::Plain => *queue_head,
        Split::Start { .. } => Qh {
            c_prog: 0,
            frame_tag: frame_tag(frindex),
            ..*queue_head
        },
        Split::Complete { .. } => Qh {
            c_prog: with(queue_head.c_prog, microframe(frindex)),
            ..*queue_head
        },
    }
}

/// Makes a transaction that sends `out`, and puts what it came to into the copy; what the host heard stands in `reply`.
pub fn transact<W: Wire>(
    wire: &mut W,
    frindex: u16,
    t: &Transaction,
    out: &[u8],
    held: &mut Held,
    reply: &mut Reply,
) -> Outcome
    requires held { IsHeld held.old }
    requires can { CanBeMade t.now }
    requires out { length out.now ≡ t.now.bytes }
    ensures made { W.transacts wire.old (call_in t.now out.now (is_last_of frindex held.old.queue_head)).ask (call_in t.now out.now (is_last_of frindex held.old.queue_head)).out reply.new wire.new }
    ensures outcome { result ≡ outcome_in t.now out.now (is_last_of frindex held.old.queue_head) reply.new }
    ensures copy { held.new ≡ interrupt_copy frindex t.now out.now reply.new held.old }
    ensures held { IsHeld held.new }
{
    let last = is_last(held.queue_head.cmask, microframe(frindex));
    let outcome = hc_copy::transact(wire, t, last, out, held, reply);
    held.queue_head = splitting(frindex, &t.split, &held.queue_head);
    outcome
}

/// The queue head whose split transaction is over, since a microframe of it was missed.
#[tactic(auto, using(crate::proofs::Ranges::missed_in_range), unfolding(crate::specs::Copies::missed_queue))]
fn halted(queue_head: &Qh) -> Qh
    requires { IsQhInRange queue_head.now }
    ensures copy { result ≡ missed_queue queue_head.now }
    ensures range { IsQhInRange result }
{
    Qh {
        token: Token {
            missed: true,
            halted: true,
            active: false,
            ..queue_head.token
        },
        ..*queue_head
    }
}

/// A microframe of the split transaction was missed: the copy halts, and has that as what it came to (EHCI 1.0, 4.12.2.4.1).
pub fn missed(held: &mut Held)
    requires { IsHeld held.old }
    ensures copy { held.new ≡ missed_copy held.old }
    ensures held { IsHeld held.new }
{
    held.queue_head = halted(&held.queue_head);
    held.settled = Some(Outcome::Halt(EndCause::Miss));
}

fn full(queue_head: &Qh, outcome: Outcome) -> bool
    ensures { result ≡ is_full queue_head.now outcome }
{
    match outcome {
        Outcome::Moved(bytes) => bytes == queue_head.max,
        _ => false,
    }
}

fn failed(outcome: Outcome) -> bool
    ensures { result ≡ has_failed outcome }
{
    match outcome {
        Outcome::Error => true,
        _ => false,
    }
}

/// Whether the visit goes on after its transaction number `made` came to this and was written back (EHCI 1.0, 4.10.3 and 4.12.2.4.2).
pub fn goes_on(made: u8, queue_head: &Qh, outcome: Outcome) -> bool
    ensures { result ≡ is_going_on made queue_head.now outcome }
{
    if !queue_head.token.active {
        return false;
    }
    if queue_head.eps == 2 {
        return full(queue_head, outcome) && made < u8::max(1, queue_head.mult);
    }
    queue_head.token.split_state && failed(outcome)
}

/// How many bytes a transaction moved.
fn count(outcome: Outcome) -> u16
    ensures { result ≡ moved_by outcome }
{
    match outcome {
        Outcome::Moved(bytes) => bytes,
        _ => 0,
    }
}

/// The queue head after this number of bytes was moved.
#[tactic(auto, using(hc_copy::proofs::Ranges::moved_in_range), unfolding(hc_copy::specs::Overlay::moved))]
fn moved(queue_head: &Qh, bytes: u16) -> Qh
    requires range { IsQhInRange queue_head.now }
    ensures copy { result ≡ moved_queue queue_head.now bytes }
    ensures range { IsQhInRange result }
{
    let place = queue_head.offset as u32 + bytes as u32;
    Qh {
        offset: (place % 4096) as u16,
        token: Token {
            c_page: u8::min(4, queue_head.token.c_page + (place / 4096) as u8),
            ..queue_head.token
        },
        ..*queue_head
    }
}

/// The copy for a further transaction of the visit, as its words stand after the write-back.
pub fn again(held: &mut Held, outcome: Outcome)
    requires { IsHeld held.old }
    ensures copy { held.new ≡ again_copy outcome held.old }
    ensures held { IsHeld held.new }
{
    held.queue_head = moved(&held.queue_head, count(outcome));
    held.settled = None;
}
