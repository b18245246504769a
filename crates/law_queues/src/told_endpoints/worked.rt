//! Worked rows.
ghost use Rattle.std.specs.Prelude.{ℕ, List, [], ◌∷◌, Some, None};
ghost use Rattle.usb_base.specs.declared.endpoints.EndCause.TheVariants.{Error};
ghost use Rattle.claims_report.specs.Samples.{sender, line_of};
ghost use Rattle.law_queues.specs.told_endpoints.Telling.{TellsEach};
ghost use Rattle.law_queues.specs.told_endpoints.Samples.{only_sender};

use usb_base::{EndCause, What};

/// Two bytes of a get that is done, and one that is held back of the next; and then that get halts with one byte more.
pub fn held_and_told()
    ensures none { TellsEach [] [] (only_sender None) (λ (e : ℕ). []) (λ (e : ℕ). []) }
    ensures held { TellsEach (line_of sender What.Done 0 2 ∷ []) (1 ∷ 2 ∷ []) (only_sender None) (λ (e : ℕ). 3 ∷ []) (λ (e : ℕ). 1 ∷ 2 ∷ 3 ∷ []) }
    ensures ended { TellsEach (line_of sender What.Done 0 2 ∷ line_of sender (What.Halt EndCause.Error) 2 2 ∷ []) (1 ∷ 2 ∷ 3 ∷ 4 ∷ [])
        (only_sender (Some Error)) (λ (e : ℕ). []) (λ (e : ℕ). 1 ∷ 2 ∷ 3 ∷ 4 ∷ []) }
{}
