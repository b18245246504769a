//! How many structures a microframe's walks visit, and how many transactions its asynchronous part makes (EHCI 1.0, 3, 4.6, 4.8, 4.8.3 and 4.10; USB 2.0, 5.11.3).
ghost use Rattle.law_microframes.specs.time.Counts.{AreFewerThanBlocks, AreFewerThanWords, TextsVisitFew, TextsRoundFew, PricesAreAtLeast, IsPaidWhereMade, AreMadeFew};
ghost use Rattle.law_microframes.specs.time.Taken.{EventsTakeTime};

/// Blocks that differ are no more than memory has.
pub fn blocks_are_no_more_than_memory_has()
    ensures blocks { AreFewerThanBlocks }
    ensures words { AreFewerThanWords }
{}

/// Each transaction of the ring costs the least price or more, and is made where that much time is left.
pub fn transactions_take_their_time()
    ensures prices { PricesAreAtLeast }
    ensures paid { IsPaidWhereMade }
    ensures few { AreMadeFew }
{}

/// In a microframe the walk of the frames visits no more structures than the largest memory has blocks; between two visits to the head of the ring the walk of the ring
/// visits no more queue heads.
pub fn visits_are_few()
    ensures frames { TextsVisitFew }
    ensures ring { TextsRoundFew }
{}

/// Each event of the walk of the ring that makes a transaction leaves less time by the least price or more, and no event leaves more.
pub fn events_take_time()
    ensures { EventsTakeTime }
{}
