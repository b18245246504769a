//! Worked rows of where a walk may go, which the check computes: the head, and the bulk endpoint's queue head in block 130, of the driver that
//! `run_owners` has for worked rows.
ghost use Rattle.std.specs.Prelude.{◌≡◌, true, false};
ghost use Rattle.link_words.specs.Layout.{is_set};
ghost use Rattle.link_words.specs.declared.kinds.Link.TheVariants as links;
ghost use Rattle.claims_driver.specs.InPlace.{characteristics};
ghost use Rattle.law_driver.specs.run_owners.Worked.{bulk, interrupt, isochronous, busy_driver};
ghost use Rattle.claims_driver.specs.Walk.{IsReached, LeadsOn, IsNumbered};

/// The links of the ring lead on.
pub fn reached_rows()
    ensures head { IsReached busy_driver false 128 }
    ensures member { IsReached busy_driver false 130 }
    ensures link { LeadsOn busy_driver false (links.Qh 4160) }
{}

/// The numbers of an endpoint fit their fields, and bit H is 0.
#[tactic(auto, unfolding(qh_qtd::specs::QueueHead::qh_words))]
pub fn number_rows()
    ensures fits { IsNumbered isochronous }
    ensures no_head { is_set 15 (characteristics bulk) ≡ false }
    ensures also_none { is_set 15 (characteristics interrupt) ≡ false }
{}
