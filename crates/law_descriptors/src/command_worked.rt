//! A worked row: of a driver that was just built.
ghost use Rattle.drv_table.specs.declared.content.Reserve.{Reserve};
ghost use Rattle.drv_table.specs.Opening.{opening};
ghost use Rattle.claims_driver.specs.Owners.{views_of};
ghost use Rattle.law_driver_ring.specs.PartOpened.{no_parts, opening_parts};
ghost use Rattle.law_descriptors.specs.Told.{IsToldBy};

/// In a memory of 2,048 words a driver that was just built has the frame list and the head of the ring, and no descriptor.
pub fn a_new_driver()
    ensures { (room : Reserve) → IsToldBy (views_of (opening 2048 room).driver) no_parts opening_parts }
{}
