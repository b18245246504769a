//! Why nothing is asked in a microframe in which the bus may not be used, where the walk of the ring goes on after an end by time, and why a queue head in hand of the walk of the
//! frames has no transaction (EHCI 1.0, 4.6, 4.8.3, 4.10, 4.10.3 and 4.12.2.4).
ghost use Rattle.law_microframes.specs.visits.FrameReasons.{MixedVisitsInFrames, TextsKeepFrameReasons, WorldsPassInFrames};
ghost use Rattle.law_microframes.specs.visits.HeldTime.{TextsKeepHeldTime};
ghost use Rattle.law_microframes.specs.visits.PlaceOfRing.{TextsKeepPlaceOfRing, WorldsKeepPlace};

/// At each moment of each script that a text spells: in a microframe in which the bus may not be used, as its Begin heard, no time is left from that Begin to the next, neither
/// walk makes a transaction, and nobody on the bus hears anything.
pub fn texts_keep_held_time()
    ensures { TextsKeepHeldTime }
{}

/// No event between two asynchronous parts moves the cursor of the walk of the ring, nor does an end by time; an end at the head of the ring leads to its start.
pub fn worlds_keep_place()
    ensures { WorldsKeepPlace }
{}

/// In each script that a text spells, whatever the driver does: an end by time drops the copy in hand and leaves the cursor at its queue head, the cursor stays there until the next
/// asynchronous part begins, and there that queue head is read anew.
pub fn texts_keep_place_of_ring()
    ensures { TextsKeepPlaceOfRing }
{}

/// In the frames an iTD in hand has its transaction, unless its slot isn't active or the price passes the time left, and a siTD has its
/// own, unless it isn't active, this microframe isn't one of its mask, the price passes the time left, or a microframe of it was missed. A
/// queue head in hand is passed only where it is halted, this microframe isn't in its S-mask or C-mask, the price of its transaction passes
/// the time left, its queue ends, or the qTD that comes next isn't active. In a mixed world each event at one that isn't settled is that,
/// its transaction, a qTD that is taken, or the write-back of a miss, and never the fault. So it is at each moment of each script that a
/// text spells.
pub fn queue_heads_of_frames_are_passed_for_a_reason()
    ensures world { WorldsPassInFrames }
    ensures mixed { MixedVisitsInFrames }
    ensures texts { TextsKeepFrameReasons }
{}
