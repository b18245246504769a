//! The laws.
ghost use Rattle.std.specs.Prelude.{ℕ, Option};
ghost use Rattle.law_ring.specs.OutBus.{Taker};
ghost use Rattle.law_world.specs.streams.left_puts.Leaving.{LeaveHoldsPuts, LeaveOwes, LeaveSends, LeaveStops, LeaveKeepsTaken, KeptStayStopped};
ghost use Rattle.law_world.specs.streams.left_puts.Released.{EndpointReleaseHoldsPuts, EndpointReleaseOwes, EndpointReleaseSends, EndpointReleaseStops, EndpointReleaseKeepsTaken};

use usb_base::Wire;

/// With each step of a leave the buffers of puts hold their bytes.
pub fn leave_holds_puts()
    ensures { LeaveHoldsPuts }
{}

/// What was reported of each OUT endpoint and what is still to be sent of it stay its puts.
pub fn leave_owes()
    ensures { LeaveOwes }
{}

/// What is out of the queue of an OUT endpoint that a walk may still meet is sent whole and in turn.
pub fn leave_sends()
    ensures { LeaveSends }
{}

/// The queue head of an OUT endpoint that has ended stays halted, and so where the queue heads that are there are spared.
pub fn a_leave_keeps_the_ended_halted()
    ensures leave { LeaveStops }
    ensures spared { KeptStayStopped }
{}

/// What the device of an OUT endpoint took begins its puts.
pub fn a_leave_keeps_what_was_taken<W: Wire>()
    ensures { (taker : W → ℕ → ℕ → Option Taker) → LeaveKeepsTaken taker }
{}

/// Where an endpoint that has left is given back, the buffers of the puts to the others hold their bytes.
pub fn endpoint_release_holds_puts()
    ensures { EndpointReleaseHoldsPuts }
{}

/// What was reported of each other OUT endpoint and what is still to be sent of it stay its puts.
pub fn endpoint_release_owes()
    ensures { EndpointReleaseOwes }
{}

/// What is out of the queues of the others is sent whole and in turn, and of those that have ended the queue heads stay halted.
pub fn a_release_leaves_the_other_queues()
    ensures sent { EndpointReleaseSends }
    ensures ended { EndpointReleaseStops }
{}

/// What the device of each of them took begins its puts, and what that of the one that is given back took begins those to it.
pub fn a_release_keeps_what_was_taken<W: Wire>()
    ensures { (taker : W → ℕ → ℕ → Option Taker) → EndpointReleaseKeepsTaken taker }
{}
