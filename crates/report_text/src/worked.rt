//! Worked lines, which the check computes.
ghost use Rattle.std.specs.Prelude.{◌≡◌, ℕ, List, [], ◌∷◌, ◌++◌, codes};
ghost use Rattle.report_text.specs.ReportText.{report_line, report_text, pending_line, taken_line, acted_line};
ghost use Rattle.report_text.specs.Samples.{endpoint, told_of};

use usb_base::{EndCause, OfferError, Way, What};

/// Lines of a report.
pub fn report_lines()
    ensures done { report_line (1 ∷ 2 ∷ 3 ∷ 4 ∷ []) (told_of (endpoint 3 1 Way.In) What.Done 0 4) ≡ codes "done 3.1.in 4 01020304" ++ 10 ∷ [] }
    ensures halt { report_line [] (told_of (endpoint 3 1 Way.In) (What.Halt EndCause.Babble) 0 0) ≡ codes "halt 3.1.in babble 0 -" ++ 10 ∷ [] }
    ensures miss { report_line [] (told_of (endpoint 3 1 Way.In) What.Miss 0 0) ≡ codes "miss 3.1.in 0 -" ++ 10 ∷ [] }
    ensures cancel { report_line (7 ∷ []) (told_of (endpoint 3 2 Way.Out) What.Cancel 0 1) ≡ codes "cancel 3.2.out 1 07" ++ 10 ∷ [] }
    ensures iso { report_line (9 ∷ 171 ∷ []) (told_of (endpoint 127 15 Way.In) (What.Iso 2) 1 1) ≡ codes "iso 127.15.in 1 ab errors 2" ++ 10 ∷ [] }
    ensures refused { report_line [] (told_of (endpoint 3 0 Way.Ctl) (What.Refused 12 (OfferError.NoBlocks 128 64)) 0 0) ≡ codes "line 12: refused no-blocks 128 64" ++ 10 ∷ [] }
    ensures closed { report_line [] (told_of (endpoint 3 0 Way.Ctl) (What.Refused 9 (OfferError.Closed EndCause.Stall)) 0 0) ≡ codes "line 9: refused closed stall" ++ 10 ∷ [] }
{}

/// The lines that close a report.
pub fn closing_lines()
    ensures pending { pending_line (endpoint 3 1 Way.In) 1 ≡ codes "pending 3.1.in 1" ++ 10 ∷ [] }
    ensures taken { taken_line (endpoint 3 2 Way.Out) (1 ∷ 255 ∷ []) ≡ codes "taken 3.2.out 2 01ff" ++ 10 ∷ [] }
    ensures taken_none { taken_line (endpoint 3 2 Way.Out) [] ≡ codes "taken 3.2.out 0 -" ++ 10 ∷ [] }
    ensures acted { acted_line (endpoint 9 0 Way.Ctl) 2 ≡ codes "acted 9.0.ctl 2" ++ 10 ∷ [] }
{}

/// A report of two lines.
pub fn two_lines()
    ensures { report_text (told_of (endpoint 3 1 Way.In) What.Done 0 2 ∷ told_of (endpoint 3 1 Way.In) (What.Refused 4 OfferError.Busy) 0 0 ∷ []) (16 ∷ 32 ∷ []) ≡
        codes "done 3.1.in 2 1020" ++ (10 ∷ (codes "line 4: refused busy" ++ 10 ∷ [])) }
{}
