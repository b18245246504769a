ghost use Rattle.std.specs.Prelude.{◌≡◌, ℕ, false, List, Some};
ghost use Rattle.qh_qtd.specs.declared.qtd.Qtd.{Qtd};
ghost use Rattle.law_structures.specs.lent_structures.Structures.{Element, StructureSets};
ghost use Rattle.law_ring.specs.Hand.{Hand};
ghost use Rattle.law_ring.specs.Streams.{NoneBeside, StreamEffect};
ghost use Rattle.law_driver_ring.specs.told_harvests.Held.{IsDone};
ghost use Rattle.law_driver_ring.specs.told_harvests.Laws.{FoundIsDone, FoundIsNoted, HeldGrows, HeldIsNoted, HeldStays, SparedIsDone, ReportIsRead, HarvestTakesFirst};

use usb_base::Wire;

/// Of a qTD that is found done the driver notes as many bytes as were moved.
pub fn a_found_qtd_is_done()
    ensures done { FoundIsDone }
    ensures noted { FoundIsNoted }
{}

/// What is held back grows by those bytes, and stays where other notes change, and wherever what is done stays.
pub fn what_is_held_grows_and_stays()
    ensures grows { HeldGrows }
    ensures notes { HeldIsNoted }
    ensures structures { HeldStays }
    ensures spared { SparedIsDone }
{}

/// An event of the walk leaves what is done, and what is told of it.
pub fn events_keep_what_is_done<W: Wire>()
    ensures { (parts : StructureSets) (hand : Hand) (wire after : W) (now : StructureSets) (later : Hand) (n b k : ℕ) (x : List ℕ)
        → ((a : ℕ) (t : Qtd) → parts n a ≡ Some (Element t) → t.token.active ≡ false → now n a ≡ Some (Element t))
        → StreamEffect NoneBeside W.transacts parts hand wire after now later → IsDone hand parts n b k x → IsDone later now n b k x }
{}

/// The report of a transfer tells what was held back of it, all of it and nothing else.
pub fn report_is_read()
    ensures { ReportIsRead }
{}

/// A harvest takes the first published qTD that no short packet passed over; what is told of the others stays.
pub fn harvest_takes_first()
    ensures { HarvestTakesFirst }
{}
