//! Worked rows of what is told of an isochronous endpoint: the line of a descriptor leaves it going on, and that of a cancel doesn't; none
//! follows that.
ghost use Rattle.std.specs.Prelude.{[], ◌∷◌};
ghost use Rattle.usb_base.specs.declared.reports.What.TheVariants as lines;
ghost use Rattle.claims_report.specs.Reports.{Pending};
ghost use Rattle.claims_world.specs.Ends.{IsEndedOnce};
ghost use Rattle.law_driver.specs.run_owners.Worked.{isochronous};
ghost use Rattle.law_reports.specs.lines.Lined.{AreIsoGoing};
ghost use Rattle.law_reports.specs.lines.LineSamples.{reporting, told_as};

/// The line of a descriptor that was served ends no endpoint.
pub fn a_served_descriptor_goes_on()
    ensures { AreIsoGoing (reporting (lines.Iso 0)) }
{}

/// The premise counts: a line of its cancel would end the endpoint while it is there.
pub fn a_cancel_ends_it()
    ensures { AreIsoGoing (reporting lines.Cancel) → ⊥ }
{}

/// Its end is told once where the line of the cancel is the last, and not where one follows or something is pending.
pub fn its_end_is_the_last_line()
    ensures last { IsEndedOnce (told_as (lines.Iso 0 ∷ lines.Cancel ∷ []) []) isochronous.name }
    ensures followed { IsEndedOnce (told_as (lines.Cancel ∷ lines.Iso 0 ∷ []) []) isochronous.name → ⊥ }
    ensures pending { IsEndedOnce (told_as (lines.Cancel ∷ []) (Pending isochronous.name 1 ∷ [])) isochronous.name → ⊥ }
{}
