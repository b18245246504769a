//! A worked row, which the check computes.
ghost use Rattle.law_structures.specs.lent_structures.Structures.{Tells};
ghost use Rattle.law_structures.specs.lent_structures.StructureSamples.{memory, parts};

/// A memory of 1,024 words with a queue head, its qTD and a buffer of two bytes is told by these three.
pub fn a_small_memory()
    ensures { Tells memory parts }
{}
