//! Worked rows of the requests that hubs hear, which the check computes.
ghost use Rattle.std.specs.Prelude.{◌≡◌, [], ◌∷◌, Some};
ghost use Rattle.claims_world.specs.BelowStreams.{LeavesTranslator};
ghost use Rattle.hub_class.specs.Worked.{set_reset, clear_first, reset_translator};
ghost use Rattle.law_reports.specs.pipes.below_hubs.DeafLaws.{IsUnopenedHub};
ghost use Rattle.law_reports.specs.pipes.below_hubs.Samples.{sheet};
ghost use Rattle.law_reports.specs.pipes.hub_setups.Laws.{HasControl};
ghost use Rattle.law_reports.specs.pipes.hub_setups.Samples.{asked, setup_at};
ghost use Rattle.law_reports.specs.pipes.hub_setups.Setups.{SendsOnly, SetsUp};

/// A script that opens endpoint 0 of its hub and has it reset a port leaves the translator; not one that has a buffer cleared, or the
/// translator reset. A scanner behind another hub is left in any case.
pub fn a_line_leaves_the_translator()
    ensures opened { IsUnopenedHub (asked set_reset) (sheet (Some 9) 4) → ⊥ }
    ensures port { LeavesTranslator (asked set_reset) (sheet (Some 9) 4) }
    ensures buffer { LeavesTranslator (asked clear_first) (sheet (Some 9) 4) → ⊥ }
    ensures translator { LeavesTranslator (asked reset_translator) (sheet (Some 9) 4) → ⊥ }
    ensures other { LeavesTranslator (asked reset_translator) (sheet (Some 8) 4) }
{}

/// Its hub may hear this request, and no other; and no other hub hears it.
pub fn a_hub_hears_its_line()
    ensures its { HasControl (asked set_reset) 9 set_reset }
    ensures other { HasControl (asked set_reset) 9 clear_first → ⊥ }
    ensures elsewhere { HasControl (asked set_reset) 8 set_reset → ⊥ }
{}

/// Of eight bytes nothing is sent as a request but these; and fewer send none.
pub fn eight_bytes_are_sent_whole()
    ensures whole { SendsOnly (λ setup. setup ≡ set_reset) set_reset }
    ensures other { SendsOnly (λ setup. setup ≡ clear_first) set_reset → ⊥ }
    ensures fewer { SendsOnly (λ setup. ⊥) (35 ∷ 3 ∷ []) }
{}

/// A queue with a SETUP of these bytes sets them up, and nothing else; one whose qTD is an OUT sets up nothing.
pub fn a_queue_sets_up_its_bytes()
    ensures its { SetsUp (λ setup. setup ≡ set_reset) (setup_at set_reset 2) }
    ensures other { SetsUp (λ setup. setup ≡ clear_first) (setup_at set_reset 2) → ⊥ }
    ensures outward { SetsUp (λ setup. ⊥) (setup_at set_reset 0) }
{}
