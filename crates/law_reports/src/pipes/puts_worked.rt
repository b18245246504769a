//! Worked rows, which the check computes.
ghost use Rattle.std.specs.Prelude.{ℕ, [], ◌∷◌};
ghost use Rattle.bus_wire.specs.Bus.{fixed_of};
ghost use Rattle.bus_world.specs.Budgets.{moment};
ghost use Rattle.law_queues.specs.whole_sends.Samples.{parts, parts_halted, member, owned, queue_of, working};
ghost use Rattle.law_opened.specs.Samples.{beside_split};
ghost use Rattle.law_world.specs.streams.put_laws.OwedTaken.{TakenBegin};
ghost use Rattle.law_world.specs.streams.put_laws.TakenPuts.{puts_at};
ghost use Rattle.law_world.specs.memory.Samples.{keyboard_and_disk, IsMixedScript};
ghost use Rattle.law_reports.specs.pipes.Declared.{sides_of};
ghost use Rattle.law_reports.specs.pipes.PipedLaws.{DeclaresOpens};
ghost use Rattle.law_reports.specs.pipes.puts.Sent.{AreSent, HasSent};
ghost use Rattle.law_reports.specs.pipes.Samples.{alone};
ghost use Rattle.law_reports.specs.pipes.puts.Paid.{HasPaid};
ghost use Rattle.law_reports.specs.pipes.puts.Takers.{HaveHighTakers, TakenBeginsPuts};
ghost use Rattle.law_reports.specs.pipes.puts.Samples.{standing_of, cut_short, lone_world, took_seven, with_puts, one_put};

/// A queue that has sent four of its seven bytes is sent whole so far, and so is one that the device stalled there; not one whose second
/// qTD is done with three bytes left.
pub fn queues_are_sent_whole()
    ensures working { AreSent (standing_of parts) member }
    ensures halted { AreSent (standing_of parts_halted) member }
    ensures short { AreSent (standing_of (owned (queue_of working cut_short))) member → ⊥ }
{}

/// Beside a keyboard behind a hub a script opens a bulk OUT endpoint at high speed and puts a byte to it: it meets the premises, so the put
/// is sent whole at each moment, and the endpoint has its taker.
pub fn a_script_sends_whole()
    ensures script { IsMixedScript beside_split }
    ensures declared { DeclaresOpens beside_split }
    ensures moments { (k : ℕ) → HasSent (fixed_of beside_split) (sides_of beside_split) (moment beside_split k).world }
    ensures takers { (k : ℕ) → HaveHighTakers beside_split (moment beside_split k).world }
{}

/// On a bus without devices an OUT endpoint has no taker.
pub fn a_bus_without_devices_has_no_taker()
    ensures { HaveHighTakers alone lone_world → ⊥ }
{}

/// Of a script that opens no OUT endpoint each taker begins what was put.
pub fn nothing_is_put_to_in_endpoints()
    ensures { TakenBeginsPuts keyboard_and_disk }
{}

/// So of the script with the put: at each moment what was taken begins what was put until then.
pub fn a_script_takes_what_was_put()
    ensures moments { (k : ℕ) → HasPaid (fixed_of beside_split) (sides_of beside_split) (puts_at beside_split k)
        (moment beside_split k).world }
    ensures begins { TakenBeginsPuts beside_split }
{}

/// A device took a byte: it begins a put of that byte and of another one behind it; but not a put of another byte, and where nothing was
/// put there is none that it begins.
pub fn what_is_taken_was_put()
    ensures put { TakenBegin took_seven (with_puts (one_put ∷ [])) (λ t. 7 ∷ 8 ∷ []) 0 }
    ensures other { TakenBegin took_seven (with_puts (one_put ∷ [])) (λ t. 8 ∷ []) 0 → ⊥ }
    ensures nothing { TakenBegin took_seven (with_puts []) (λ t. 7 ∷ []) 0 → ⊥ }
{}
