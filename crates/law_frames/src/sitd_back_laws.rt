ghost use Rattle.law_frames.specs.SitdBackLaws.{SitdIsSent, TransactedIsInHand, MissedIsInHand, ReceivedIsPut, BytesAreCounted, AllIsWritten, WriteBackIsTold, SitdIsMetAgain, OthersStay};

/// A transaction of a siTD in hand sends the bytes of its buffer, from its place on, and is refused none (4.12.3.3 and 4.15.2.4).
pub fn sitd_is_sent()
    ensures { SitdIsSent }
{}

/// Whatever a transaction came to, the copy is one of the same siTD, which was active, and has as many bytes left as weren't moved (3.4.3).
pub fn transacted_is_in_hand()
    ensures { TransactedIsInHand }
{}

/// So it is where a microframe was missed, and no byte was moved (4.12.3.3.2).
pub fn missed_is_in_hand()
    ensures { MissedIsInHand }
{}

/// What a transaction received has its place in the buffer, from the siTD's place on.
pub fn received_is_put()
    ensures { ReceivedIsPut }
{}

/// A write-back is made in full: received bytes are in the buffer, and words 3 to 5 in the siTD, whose link stays that in memory (4.12.3.3). Its bytes are less
/// by just those that were moved, which for an IN are those that were received (3.4.3). The siTD is then as sound as it was, and what belongs to others is the
/// same.
pub fn a_write_back_of_a_sitd_is_told()
    ensures counted { BytesAreCounted }
    ensures whole { AllIsWritten }
    ensures left { WriteBackIsTold }
    ensures met { SitdIsMetAgain }
    ensures others { OthersStay }
{}
