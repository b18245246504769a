//! Worked rows of control requests, which the check computes.
ghost use Rattle.std.specs.Prelude.{◌≡◌, ℕ, List, [], ◌∷◌, ◌++◌, codes};
ghost use Rattle.script_types.specs.declared.devices.Item.TheVariants.{Request as Knows};
ghost use Rattle.script_types.specs.declared.scripts.Script.{Script as Text};
ghost use Rattle.usb_base.specs.declared.commands.Cmd.TheVariants.{Control};
ghost use Rattle.claims_report.specs.Reports.{WholeReport, Acted, whole_text};
ghost use Rattle.claims_report.specs.Requests.{Window, AreRightRequests, data_of};
ghost use Rattle.claims_report.specs.Samples.{two_requests, two_lines, control, read_two, read_unknown, window};

use usb_base::{EndCause, What};

/// A read that is done, and one that the device stalls, for which it has no reply.
pub fn done_and_stalled()
    ensures sent { data_of two_requests control (record { setup = read_two; bytes = [] }) ≡ 18 ∷ 1 ∷ [] }
    ensures nothing_sent { data_of two_requests control (record { setup = read_unknown; bytes = [] }) ≡ [] }
    ensures right { AreRightRequests two_requests (two_lines 1) control (window read_two (read_two ∷ []) ∷ window read_unknown [] ∷ []) }
    ensures text { whole_text (two_lines 1) ≡ codes "done 3.0.ctl 2 1201" ++ (10 ∷ codes "halt 3.0.ctl stall 0 -") ++ (10 ∷ codes "acted 3.0.ctl 1") ++ 10 ∷ [] }
{}

/// What isn't right: a done request that was never acted on, one that was acted on twice, an act on other setup bytes, a wrong count.
pub fn wrong_acts()
    ensures never { AreRightRequests two_requests (two_lines 0) control (window read_two [] ∷ window read_unknown [] ∷ []) → ⊥ }
    ensures twice { AreRightRequests two_requests (two_lines 1) control (window read_two (read_two ∷ read_two ∷ []) ∷ window read_unknown [] ∷ []) → ⊥ }
    ensures other { AreRightRequests two_requests (two_lines 2) control (window read_two (read_two ∷ []) ∷ window read_unknown (read_two ∷ []) ∷ []) → ⊥ }
    ensures count { AreRightRequests two_requests (two_lines 2) control (window read_two (read_two ∷ []) ∷ window read_unknown [] ∷ []) → ⊥ }
{}
