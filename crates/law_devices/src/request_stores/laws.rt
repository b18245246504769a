//! The laws.
ghost use Rattle.std.specs.Prelude.{ℕ, Option};
ghost use Rattle.claims_report.specs.ControlSides.{Device};
ghost use Rattle.law_devices.specs.request_stores.Published.{LendKeepsWindows, IdleStoreKeepsWindows, LastStoreKeepsWindows};

use usb_base::Wire;

/// A lend of further structures leaves all windows as they were, and so does each store over a qTD that is no request's and stays inactive. The store
/// that makes the tail the SETUP of a request puts that request behind the others of its endpoint, not begun; the windows of all others stay.
pub fn a_request_is_published<W: Wire>()
    ensures lend { (device : W → ℕ → ℕ → Option Device) → LendKeepsWindows device }
    ensures idle { (device : W → ℕ → ℕ → Option Device) → IdleStoreKeepsWindows device }
    ensures last { (device : W → ℕ → ℕ → Option Device) → LastStoreKeepsWindows device }
{}
