//! The laws.
ghost use Rattle.drv_table.specs.DriverContent.{DriverContent};
ghost use Rattle.claims_driver.specs.FrameWords.{IsInOrder};
ghost use Rattle.law_driver.specs.listed_members.Members.{IsListed};
ghost use Rattle.law_descriptors.specs.Written.{AreLinks};

/// Where the members of the frame list are in order, and are those of the driver, the link that a descriptor is given is a link word: the word of what stands
/// first in its frame, or the end.
pub fn descriptors_are_given_links()
    ensures { (d : DriverContent) → IsListed d → IsInOrder d.periodic.list → AreLinks d }
{}
