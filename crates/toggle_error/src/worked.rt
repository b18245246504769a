//! Worked rows of the settle table, which the check computes.
ghost use Rattle.std.specs.Prelude.{◌≡◌, true, false, [], ◌∷◌};
ghost use Rattle.toggle_error.specs.Worked.{host, bulk, start, complete, comes_to, comes_last, four, five, ask_of};

use crate::host::Outcome;
use usb_base::{EndCause, EpKind, Pid, Reply, Speed, Split};

/// What an IN may hear.
pub fn plain_in()
    ensures full { comes_to (bulk Pid.In) (Reply.Bytes Pid.Data0 four) host
        ≡ (Outcome.Moved 4, record host { toggle = true; left = 2 }) }
    ensures short { comes_to (bulk Pid.In) (Reply.Bytes Pid.Data0 (7 ∷ [])) host
        ≡ (Outcome.Moved 1, record host { toggle = true; left = 5; active = false }) }
    ensures empty { comes_to (bulk Pid.In) (Reply.Bytes Pid.Data0 []) host
        ≡ (Outcome.Moved 0, record host { toggle = true; active = false }) }
    ensures last { comes_to (bulk Pid.In) (Reply.Bytes Pid.Data1 four) (record host { toggle = true; left = 4 })
        ≡ (Outcome.Moved 4, record host { left = 0; active = false }) }
    ensures repeat { comes_to (bulk Pid.In) (Reply.Bytes Pid.Data1 five) host
        ≡ (Outcome.Discarded, host) }
    ensures too_long { comes_to (bulk Pid.In) (Reply.Bytes Pid.Data0 five) host
        ≡ (Outcome.Halt EndCause.Babble, record host { babble = true; halted = true; active = false }) }
    ensures too_long_for_left { comes_to (bulk Pid.In) (Reply.Bytes Pid.Data0 four) (record host { left = 3 })
        ≡ (Outcome.Halt EndCause.Babble, record host { left = 3; babble = true; halted = true; active = false }) }
    ensures nak { comes_to (bulk Pid.In) (Reply.Hand Pid.Nak) host ≡ (Outcome.Nak, host) }
    ensures stall { comes_to (bulk Pid.In) (Reply.Hand Pid.Stall) host
        ≡ (Outcome.Halt EndCause.Stall, record host { halted = true; active = false }) }
{}

/// Errors, and the last that is counted.
pub fn errors()
    ensures silent { comes_to (bulk Pid.In) Reply.Silent host
        ≡ (Outcome.Error, record host { xact_err = true; cerr = 2 }) }
    ensures third { comes_to (bulk Pid.In) Reply.Silent (record host { cerr = 1 })
        ≡ (Outcome.Halt EndCause.Error, record host { xact_err = true; cerr = 0; halted = true; active = false }) }
    ensures uncounted { comes_to (bulk Pid.In) Reply.Silent (record host { cerr = 0 })
        ≡ (Outcome.Error, record host { xact_err = true; cerr = 0 }) }
    ensures ack_to_in { comes_to (bulk Pid.In) (Reply.Hand Pid.Ack) host
        ≡ (Outcome.Error, record host { xact_err = true; cerr = 2 }) }
    ensures data2_to_in { comes_to (bulk Pid.In) (Reply.Bytes Pid.Data2 four) host
        ≡ (Outcome.Error, record host { xact_err = true; cerr = 2 }) }
    ensures nak_to_setup { comes_to (bulk Pid.Setup) (Reply.Hand Pid.Nak) host
        ≡ (Outcome.Error, record host { xact_err = true; cerr = 2 }) }
    ensures data_to_out { comes_to (bulk Pid.Out) (Reply.Bytes Pid.Data0 four) host
        ≡ (Outcome.Error, record host { xact_err = true; cerr = 2; ping = true }) }
{}

/// What an OUT, a SETUP and a PING may hear.
pub fn plain_out()
    ensures ack { comes_to (bulk Pid.Out) (Reply.Hand Pid.Ack) (record host { ping = true })
        ≡ (Outcome.Moved 4, record host { toggle = true; left = 2 }) }
    ensures last { comes_to (bulk Pid.Setup) (Reply.Hand Pid.Ack) (record host { left = 4 })
        ≡ (Outcome.Moved 4, record host { toggle = true; left = 0; active = false }) }
    ensures nyet { comes_to (bulk Pid.Out) (Reply.Hand Pid.Nyet) host
        ≡ (Outcome.Moved 4, record host { toggle = true; left = 2; ping = true }) }
    ensures nyet_to_interrupt { comes_to (ask_of Split.Plain Pid.Out Speed.High EpKind.Interrupt) (Reply.Hand Pid.Nyet) host
        ≡ (Outcome.Error, record host { xact_err = true; cerr = 2 }) }
    ensures nak { comes_to (bulk Pid.Out) (Reply.Hand Pid.Nak) host
        ≡ (Outcome.Nak, record host { ping = true }) }
    ensures nak_to_interrupt { comes_to (ask_of Split.Plain Pid.Out Speed.High EpKind.Interrupt) (Reply.Hand Pid.Nak) host
        ≡ (Outcome.Nak, host) }
    ensures silent { comes_to (bulk Pid.Out) Reply.Silent host
        ≡ (Outcome.Error, record host { xact_err = true; cerr = 2; ping = true }) }
    ensures ping_ack { comes_to (bulk Pid.Ping) (Reply.Hand Pid.Ack) (record host { ping = true })
        ≡ (Outcome.Wait, host) }
    ensures ping_nak { comes_to (bulk Pid.Ping) (Reply.Hand Pid.Nak) (record host { ping = true })
        ≡ (Outcome.Nak, record host { ping = true }) }
    ensures ping_nyet { comes_to (bulk Pid.Ping) (Reply.Hand Pid.Nyet) host
        ≡ (Outcome.Error, record host { xact_err = true; cerr = 2; ping = true }) }
{}

/// What a start-split may hear.
pub fn starts()
    ensures ack { comes_to (start Pid.In EpKind.Bulk) (Reply.Hand Pid.Ack) host
        ≡ (Outcome.Wait, record host { waiting = true }) }
    ensures nak { comes_to (start Pid.Setup EpKind.Control) (Reply.Hand Pid.Nak) host
        ≡ (Outcome.Nak, host) }
    ensures stall { comes_to (start Pid.Out EpKind.Bulk) (Reply.Hand Pid.Stall) host
        ≡ (Outcome.Error, record host { xact_err = true; cerr = 2 }) }
    ensures interrupt { comes_to (start Pid.In EpKind.Interrupt) Reply.Silent host
        ≡ (Outcome.Wait, record host { waiting = true }) }
{}

/// What a complete-split may hear.
pub fn completes()
    ensures nyet { comes_last (complete Pid.In EpKind.Bulk) (Reply.Hand Pid.Nyet) (record host { waiting = true })
        ≡ (Outcome.Wait, record host { waiting = true }) }
    ensures early { comes_to (complete Pid.In EpKind.Interrupt) (Reply.Hand Pid.Nyet) (record host { waiting = true })
        ≡ (Outcome.Wait, record host { waiting = true }) }
    ensures late { comes_last (complete Pid.In EpKind.Interrupt) (Reply.Hand Pid.Nyet) (record host { waiting = true })
        ≡ (Outcome.Error, record host { xact_err = true; cerr = 2 }) }
    ensures data { comes_to (complete Pid.In EpKind.Bulk) (Reply.Bytes Pid.Data0 four) (record host { waiting = true })
        ≡ (Outcome.Moved 4, record host { toggle = true; left = 2 }) }
    ensures ack { comes_to (complete Pid.Out EpKind.Interrupt) (Reply.Hand Pid.Ack) (record host { waiting = true })
        ≡ (Outcome.Moved 4, record host { toggle = true; left = 2 }) }
    ensures nak { comes_to (complete Pid.In EpKind.Interrupt) (Reply.Hand Pid.Nak) (record host { waiting = true })
        ≡ (Outcome.Nak, host) }
    ensures stall { comes_to (complete Pid.Out EpKind.Control) (Reply.Hand Pid.Stall) (record host { waiting = true })
        ≡ (Outcome.Halt EndCause.Stall, record host { halted = true; active = false }) }
    ensures err { comes_to (complete Pid.In EpKind.Interrupt) (Reply.Hand Pid.Err) (record host { waiting = true })
        ≡ (Outcome.Error, record host { xact_err = true; cerr = 2 }) }
    ensures err_to_bulk { comes_to (complete Pid.In EpKind.Bulk) (Reply.Hand Pid.Err) (record host { waiting = true })
        ≡ (Outcome.Error, record host { xact_err = true; cerr = 2; waiting = true }) }
    ensures nak_to_setup { comes_to (complete Pid.Setup EpKind.Control) (Reply.Hand Pid.Nak) (record host { waiting = true })
        ≡ (Outcome.Error, record host { xact_err = true; cerr = 2; waiting = true }) }
    ensures silent { comes_to (complete Pid.In EpKind.Interrupt) Reply.Silent (record host { waiting = true })
        ≡ (Outcome.Error, record host { xact_err = true; cerr = 2; waiting = true }) }
{}
