ghost use Rattle.std.specs.Prelude.{◌≡◌};
ghost use Rattle.qh_qtd.specs.QueueHead.{IsQhInRange};
ghost use Rattle.hc_copy.specs.Visits.{IsHeld};
ghost use Rattle.async_walk.specs.Naks.{kind_at, may_work, mode_after, reloaded as reloaded_queue, counts, naks_after, counted_queue, counted_copy};

use crate::state::ReloadMode;
use hc_copy::Held;
use qh_qtd::Qh;
use toggle_error::Outcome;
use usb_base::{EpKind, Pid, Reply};

/// The kind of an endpoint of the ring: a control endpoint takes its toggle from each qTD (EHCI 1.0, 3.6.2).
pub(crate) fn kind(queue_head: &Qh) -> EpKind
    ensures { result ≡ kind_at queue_head.now.dtc }
{
    if queue_head.dtc {
        EpKind::Control
    } else {
        EpKind::Bulk
    }
}

/// Whether NAKs aren't counted, or some are left.
pub(crate) fn may(queue_head: &Qh) -> bool
    ensures { result ≡ may_work queue_head.now }
{
    queue_head.rl == 0 || queue_head.nak_cnt != 0
}

/// The mode after a queue head was read.
pub(crate) fn mode_of(queue_head: &Qh, mode: ReloadMode) -> ReloadMode
    ensures { result ≡ mode_after queue_head.now mode }
{
    if !queue_head.head {
        return mode;
    }
    match mode {
        ReloadMode::WaitHead => ReloadMode::Reload,
        ReloadMode::Reload | ReloadMode::WaitStart => ReloadMode::WaitStart,
    }
}

/// The copy of a queue head that is read in a mode.
#[tactic(auto, using(crate::proofs::Ranges::reloaded_in_range), unfolding(crate::specs::Naks::reloaded))]
pub(crate) fn reloaded(queue_head: Qh, mode: ReloadMode) -> Qh
    requires { IsQhInRange queue_head }
    ensures copy { result ≡ reloaded_queue mode queue_head }
    ensures range { IsQhInRange result }
{
    match mode {
        ReloadMode::Reload => Qh {
            nak_cnt: queue_head.rl,
            ..queue_head
        },
        ReloadMode::WaitHead | ReloadMode::WaitStart => queue_head,
    }
}

/// Whether an answer is counted like a NAK.
fn counted(outcome: Outcome, reply: &Reply) -> bool
    ensures { result ≡ counts outcome reply.now }
{
    match (outcome, reply) {
        (Outcome::Nak, _) => true,
        (Outcome::Moved(_), Reply::Hand(Pid::Nyet)) => true,
        _ => false,
    }
}

/// The count of NAKs after an answer.
fn left(queue_head: &Qh, counted: bool) -> u8
    ensures { result ≡ naks_after counted queue_head.now }
{
    if queue_head.rl != 0 {
        if counted {
            return queue_head.nak_cnt.saturating_sub(1);
        }
    }
    queue_head.nak_cnt
}

/// The queue head with its count of NAKs after an answer.
#[tactic(auto, using(crate::proofs::Ranges::counted_in_range), unfolding(crate::specs::Naks::counted_queue))]
fn counting(queue_head: &Qh, counted: bool) -> Qh
    requires { IsQhInRange queue_head.now }
    ensures copy { result ≡ counted_queue counted queue_head.now }
    ensures range { IsQhInRange result }
{
    Qh {
        nak_cnt: left(queue_head, counted),
        ..*queue_head
    }
}

/// The copy counts the answer that its transaction had.
pub(crate) fn count(held: &mut Held, outcome: Outcome, reply: &Reply)
    requires held { IsHeld held.old }
    ensures copy { held.new ≡ counted_copy outcome reply.now held.old }
    ensures held { IsHeld held.new }
{
    held.queue_head = counting(&held.queue_head, counted(outcome, reply));
}
