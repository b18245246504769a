//! What an event of the controller may do to Run, to Host System Error and to the count of refusals, whatever registers, words and wire it
//! is lent (EHCI 1.0, 2.3.1, 2.3.2 and 4.15.2.4). Each function does nothing; its contract is the law.
//!
//! It stands on the rows of `hc_core`; `app_probe` counts by it.
#![tactic(auto)]

ghost use Rattle.hc_core.specs.Controller.{Content};
ghost use Rattle.law_refusals.specs.Refusals.{IsEvent, GoesOnOrStops};

use usb_base::Wire;

/// Each event leaves Run, Host System Error and the count of refusals, or it is the fault, with at most one refusal more.
#[tactic(auto, using(crate::proofs::Events::each_event_counts_once))]
pub fn each_event_counts_once<W: Wire>()
    ensures { (old new : Content) (before after : W) → IsEvent W.begins W.transacts old before new after → GoesOnOrStops old.registers old.memory new.registers new.memory }
{}
