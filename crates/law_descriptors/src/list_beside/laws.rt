ghost use Rattle.word_mem.specs.Memory.{Mem, word_at};
ghost use Rattle.drv_periodic.specs.Periodic.{Periodic};
ghost use Rattle.drv_table.specs.DriverContent.{DriverContent};
ghost use Rattle.law_structures.specs.lent_structures.Structures.{StructureSets};
ghost use Rattle.claims_base.specs.Controller.{Base};
ghost use Rattle.law_frame_words.specs.list_words.Spared.{LeavesList};
ghost use Rattle.law_descriptors.specs.frame_keeps.Leaving.{LeavesStructures};
ghost use Rattle.law_descriptors.specs.list_beside.Links.{HasItsLinks, IsTold};
ghost use Rattle.law_descriptors.specs.list_beside.Laws.{ListIsKept, WrittenElsewhere, ToldStays, DescribedIsTold, DescribedAreKept, EventsLeaveDriver};

use usb_base::Wire;

/// Where the controller leaves words of structures, the words of a frame list and the links of its members stay (3.1, 4.6).
pub fn links_of_a_list_stay()
    ensures { (m new : Mem) (parts : StructureSets) (p : Periodic) → HasItsLinks m parts p → LeavesStructures parts m new → LeavesList p (word_at m) (word_at new) }
{}

/// Each member of a driver's list has its link among its structures, or isn't lent yet.
pub fn a_driver_has_its_links()
    ensures { (base : Base) (parts all : StructureSets) (m : Mem) (d : DriverContent) → IsTold base parts all m d → HasItsLinks m all d.periodic.list }
{}

/// So its list stands on, and descriptors that are still to be linked lead to what stands first in their frames.
pub fn list_is_kept()
    ensures { ListIsKept }
{}

/// And the states of blocks, the words of Free blocks, and words 0 to 2 of each queue head of the driver stay.
pub fn written_elsewhere()
    ensures { WrittenElsewhere }
{}

/// So what the driver has lent stays told.
pub fn told_stays()
    ensures { ToldStays }
{}

/// A driver is told where its isochronous descriptors stand beside its queues, and what is kept of structures keeps each of them.
pub fn descriptors_beside_a_list()
    ensures told { DescribedIsTold }
    ensures kept { DescribedAreKept }
{}

/// So each event of the controller over both walks leaves a driver.
pub fn events_leave_driver<W: Wire>()
    ensures { EventsLeaveDriver W.begins W.transacts }
{}
