//! Worked rows of the definitions, which the check computes.
ghost use Rattle.std.specs.Prelude.{◌≡◌, [], ◌∷◌, Some, None, length, true, false};
ghost use Rattle.usb_base.specs.declared.packets.EpKind.TheVariants.{Bulk, Interrupt};
ghost use Rattle.usb_base.specs.declared.packets.Pid.TheVariants as Pids;
ghost use Rattle.usb_base.specs.declared.packets.Reply.TheVariants as Replies;
ghost use Rattle.multi_tt.specs.Translators.{opening, opening_of, translator_at};
ghost use Rattle.multi_tt.specs.Calls.{Start, Completes, Starts, Works, Work, hub_after, hub_answer, hub_played, only};
ghost use Rattle.multi_tt.specs.Single.{silence};
ghost use Rattle.multi_tt.specs.Worked.{start, complete, two, data_1, data_2, both, first_cleared, first_reset};

/// Two ports have a translator each; what is started at one isn't known at the other.
pub fn ports()
    ensures two { length two.all ≡ 2 }
    ensures one { length (opening_of 2 false).all ≡ 1 }
    ensures first { hub_answer (Completes (complete 1 1 Bulk)) (hub_played both two) ≡ Some data_1 }
    ensures second { hub_answer (Completes (complete 2 1 Bulk)) (hub_played both two) ≡ Some data_2 }
    ensures unknown { hub_answer (Completes (complete 2 2 Bulk)) (hub_played both two) ≡ Some Replies.Silent }
    ensures no_port { hub_answer (Starts (start 3 1 Bulk) [] 0) two ≡ Some Replies.Silent }
    ensures no_change { hub_after (Starts (start 3 1 Bulk) [] 0) two ≡ two }
    ensures port_0 { translator_at 0 two ≡ None }
    ensures only_second { only 2 (Starts (start 1 1 Bulk) [] 0 ∷ Starts (start 2 1 Bulk) [] 0 ∷ Works 1 [] ∷ [])
        ≡ Start (start 2 1 Bulk) [] 0 ∷ Work 1 silence ∷ [] }
{}

/// A clear or a reset of one port leaves the other; of a hub with one translator any port is its own.
pub fn clears()
    ensures cleared { hub_answer (Completes (complete 1 1 Bulk)) (hub_played first_cleared two) ≡ Some Replies.Silent }
    ensures kept { hub_answer (Completes (complete 2 1 Bulk)) (hub_played first_cleared two) ≡ Some data_2 }
    ensures reset { translator_at 1 (hub_played first_reset two) ≡ Some opening }
    ensures kept_then { hub_answer (Completes (complete 2 1 Bulk)) (hub_played first_reset two) ≡ Some data_2 }
    ensures all_one { hub_answer (Completes (complete 2 1 Bulk)) (hub_played first_reset (opening_of 2 false)) ≡ Some Replies.Silent }
{}

/// After a microframe over a silent port a bulk complete-split is answered by silence at either port, and a periodic one NYET.
pub fn silent_microframe()
    ensures first { hub_answer (Completes (complete 1 1 Bulk)) (hub_played (Works 1 [] ∷ []) two) ≡ Some Replies.Silent }
    ensures second { hub_answer (Completes (complete 2 1 Bulk)) (hub_played (Works 1 [] ∷ []) two) ≡ Some Replies.Silent }
    ensures periodic { hub_answer (Completes (complete 2 1 Interrupt)) (hub_played (Works 1 [] ∷ []) two) ≡ Some (Replies.Hand Pids.Nyet) }
{}
