//! Worked rows, which the check computes.
ghost use Rattle.std.specs.Prelude.{◌≡◌, [], ◌∷◌, length};
ghost use Rattle.script_types.specs.declared.scripts.Event.TheVariants.{D};
ghost use Rattle.script_types.specs.declared.scripts.Line.TheVariants.{Order};
ghost use Rattle.usb_base.specs.declared.commands.Cmd.TheVariants.{OpenEp};
ghost use Rattle.usb_base.specs.declared.reports.OfferError.TheVariants.{Busy};
ghost use Rattle.usb_base.specs.declared.reports.What.TheVariants.{Refused};
ghost use Rattle.claims_report.specs.Samples.{commanded, line_of, receiver, bulk};
ghost use Rattle.claims_report.specs.Streams.{stream};
ghost use Rattle.law_world.specs.streams.put_laws.TakenLines.{NumbersRise, AreTaken};
ghost use Rattle.law_world.specs.streams.put_laws.TakenPuts.{puts_of, puts_to, puts_at};
ghost use Rattle.law_world.specs.streams.put_laws.TakenSamples.{first, second, two_puts, after, report_after, in_disorder};

/// The numbers of a script's lines rise, or don't.
pub fn numbers()
    ensures rise { NumbersRise two_puts }
    ensures disorder { NumbersRise in_disorder → ⊥ }
{}

/// The first event of the driver is made, of two: the open and the line of these events were taken. At the end all lines were.
pub fn lines_taken()
    ensures part { AreTaken two_puts (after 2) (commanded 5 (OpenEp (bulk receiver)) ∷ (6, Order D 2) ∷ []) (first ∷ second ∷ []) }
    ensures over { (after 6).orders ≡ [] }
    ensures all { AreTaken two_puts (after 6) two_puts.lines [] }
{}

/// The first put is accepted, as the driver's first transfer. Its bytes begin the stream, in which the second put is counted until it is refused.
pub fn a_put_is_accepted()
    ensures transfers { length (after 5).world.driver.transfers ≡ 1 }
    ensures puts { puts_of (after 5).world.driver (puts_at two_puts 5) 0 ≡ (1 ∷ 2 ∷ 3 ∷ []) ∷ [] }
    ensures taken { puts_to (report_after 5) (commanded 5 (OpenEp (bulk receiver)) ∷ (6, Order D 2) ∷ first ∷ []) receiver ≡ 1 ∷ 2 ∷ 3 ∷ [] }
    ensures stream { stream two_puts (report_after 5) receiver ≡ 1 ∷ 2 ∷ 3 ∷ 9 ∷ [] }
{}

/// The second put is refused, as the first isn't published yet: it is no transfer, and not in the stream.
pub fn a_put_is_refused()
    ensures transfers { length (after 6).world.driver.transfers ≡ 1 }
    ensures told { (after 6).world.driver.reports ≡ line_of receiver (Refused 8 Busy) 0 0 ∷ [] }
    ensures puts { puts_of (after 6).world.driver (puts_at two_puts 6) 0 ≡ (1 ∷ 2 ∷ 3 ∷ []) ∷ [] }
    ensures stream { stream two_puts (report_after 6) receiver ≡ 1 ∷ 2 ∷ 3 ∷ [] }
{}
