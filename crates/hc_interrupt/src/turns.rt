ghost use Rattle.std.specs.Prelude.{◌≡◌};
ghost use Rattle.qh_qtd.specs.QueueHead.{IsQhInRange};
ghost use Rattle.hc_copy.specs.Planning.{CanBeMade};
ghost use Rattle.hc_interrupt.specs.Turns.{waits as is_waiting, is_missed, start_turn, complete_turn, turn_of, planned as next_planned};

use crate::frames::{frame_tag, microframe};
use hc_copy::{Transaction, Visit, next_transaction, visit};
use hc_masks::{has, is_after_first, lacks};
use link_words::QtdLink;
use qh_qtd::Qh;
use usb_base::EpKind;

/// What there is to do at a queue head in a microframe.
#[derive(Clone, Copy, Debug, PartialEq, Eq)]
pub enum Turn {
    /// Nothing: it is halted, or it doesn't work in this microframe.
    Rest,
    /// A transaction for its overlay.
    Work,
    /// A microframe of its split transaction was missed.
    Miss,
    /// Its overlay is done: the qTD that this link leads to is taken.
    Take(QtdLink),
}

/// Whether complete-splits come.
fn waits(queue_head: &Qh) -> bool
    ensures { result ≡ is_waiting queue_head.now }
{
    // Complete-splits are of full and low speed, and only after a start-split (EHCI 1.0, 4.12.2.4.2).
    queue_head.eps != 2
        && queue_head.token.split_state
        && queue_head.token.active
        && !queue_head.token.halted
}

/// Whether a microframe of its split transaction was missed.
fn was_missed(frindex: u16, queue_head: &Qh) -> bool
    ensures { result ≡ is_missed frindex queue_head.now }
{
    let number = microframe(frindex);
    // Another frame, a microframe that isn't behind the start-split's, or one of the C-mask that brought none (EHCI 1.0,
    // 4.12.2.4.2 and 4.12.2.4.3).
    queue_head.frame_tag != frame_tag(frindex)
        || !is_after_first(queue_head.smask, number)
        || lacks(queue_head.cmask, queue_head.c_prog, number)
}

fn completing(missed: bool, comes: bool) -> Turn
    ensures { result ≡ complete_turn missed comes }
{
    // The answer may have come and gone, so the endpoint is halted (EHCI 1.0, 4.12.2.4.2).
    if missed {
        return Turn::Miss;
    }
    // A bit of the C-mask: a complete-split in this microframe (EHCI 1.0, 4.12.2.4.2).
    if comes {
        return Turn::Work;
    }
    Turn::Rest
}

fn starting(visit: Visit) -> Turn
    ensures { result ≡ start_turn visit }
{
    match visit {
        // Halted, or no bit of the S-mask in this microframe (EHCI 1.0, 4.10.3).
        Visit::Rest => Turn::Rest,
        // A high-speed transaction or a start-split (EHCI 1.0, 4.10.3 and 4.12.2.4.1).
        Visit::Work => Turn::Work,
        // The overlay is done, so the queue is advanced in its microframe alone (EHCI 1.0, 4.10.2).
        Visit::Take(link) => Turn::Take(link),
    }
}

/// What there is to do at a queue head of the frame's chain in the microframe that FRINDEX tells (EHCI 1.0, 4.10 and 4.12.2).
pub fn turn_in(frindex: u16, queue_head: &Qh) -> Turn
    ensures { result ≡ turn_of frindex queue_head.now }
{
    let number = microframe(frindex);
    // Do-Complete: the C-mask counts, and the S-mask doesn't (EHCI 1.0, 4.12.2.4.2).
    if waits(queue_head) {
        return completing(
            was_missed(frindex, queue_head),
            has(queue_head.cmask, number),
        );
    }
    starting(visit(queue_head, has(queue_head.smask, number)))
}

/// The transaction that comes next for an interrupt endpoint.
pub fn planned(queue_head: &Qh) -> Transaction
    requires { IsQhInRange queue_head.now }
    ensures value { result ≡ next_planned queue_head.now }
    ensures can { CanBeMade result }
{
    next_transaction(queue_head, EpKind::Interrupt)
}
