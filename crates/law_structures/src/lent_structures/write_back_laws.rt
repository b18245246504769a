//! The laws.
ghost use Rattle.law_structures.specs.lent_structures.WriteBackLaws.{AdvanceIsTold, SentIsTold, NothingIsSent, AllIsWritten, WriteBackIsTold};

/// The overlay has the qTD that was taken, and its link stays that in memory (3.6, 4.10.2).
pub fn advance_is_told()
    ensures { AdvanceIsTold }
{}

/// A transaction sends the bytes of its buffer from the place of the overlay on, and is refused none (4.10.3).
pub fn what_is_sent_is_told()
    ensures bytes { SentIsTold }
    ensures nothing { NothingIsSent }
{}

/// A write-back is made in full: received bytes are in the buffer, the overlay in the queue head, whose link stays that in memory, and the token
/// in the qTD where that isn't active any more (4.10.4 to 4.10.6).
pub fn a_write_back_is_told()
    ensures whole { AllIsWritten }
    ensures left { WriteBackIsTold }
{}
