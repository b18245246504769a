//! A worked row, which the check computes.
ghost use Rattle.word_mem.specs.Memory.{Mem};
ghost use Rattle.law_driver_ring.specs.PartOpened.{opening_parts};
ghost use Rattle.law_descriptors.specs.list_beside.Links.{HasItsLinks};
ghost use Rattle.law_descriptors.specs.list_beside.Samples.{list};

/// The list has its table and the link of its member, whatever else is in memory.
pub fn a_list_has_its_links()
    ensures { (m : Mem) → HasItsLinks m opening_parts list }
{}
