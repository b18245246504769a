//! Worked rows of the fixed words (EHCI 1.0, 3.6.2), which the check computes, of the endpoints that `run_owners` has for them.
ghost use Rattle.std.specs.Prelude.{◌≡◌};
ghost use Rattle.law_driver.specs.run_owners.Worked.{bulk};
ghost use Rattle.claims_driver.specs.InPlace.{characteristics, capabilities};

/// A bulk endpoint at high speed, of device 1, number 1, with packets of 512 bytes: four NAKs are let pass, and one transaction comes in a microframe.
#[tactic(auto, unfolding(qh_qtd::specs::QueueHead::qh_words))]
pub fn fixed_rows()
    ensures characteristics { characteristics bulk ≡ 0x42002101 }
    ensures capabilities { capabilities bulk ≡ 0x40000000 }
{}
