//! The laws.
ghost use Rattle.law_reports.specs.requests.TransferEvents.{EventKeepsRecords, EventKeepsClosed};
ghost use Rattle.law_reports.specs.requests.Counts.{EventKeepsCounts, CountsAreActs};
ghost use Rattle.law_reports.specs.requests.Apart.{LaidAreApart, LaidAreOthers};
ghost use Rattle.law_reports.specs.requests.Harvests.{DoneIsEnded};
ghost use Rattle.law_reports.specs.requests.Lent.{RequestIsLent};
ghost use Rattle.law_reports.specs.requests.TransferChanges.{RowKeepsRecords, RequestIsAccepted, OtherIsAccepted, AcceptedKeepsRecords, CourseIsRecorded, BehindIsPublished, FirstIsPublished, HaltedIsPublished, MendedIsRecorded, FirstIsClosed, LastIsClosed, AllAreClosed, NewIsRecorded, CourseIsGone};

/// Each event of the controller leaves what is recorded as it must be: of the requests of each queue their windows, of those that aren't begun nothing, and of each
/// closed window what it was.
pub fn an_event_keeps_the_records()
    ensures records { EventKeepsRecords }
    ensures closed { EventKeepsClosed }
{}

/// The device of each queue counts one for each act that is recorded in the windows of its transfers; so it counts the windows with an act, up to the last value of
/// 32 bits.
pub fn devices_count_their_acts()
    ensures event { EventKeepsCounts }
    ensures acts { CountsAreActs }
{}

/// The rows of a driver and what it accepts leave what is recorded as it must be: a request comes behind those of its endpoint, and nothing is recorded of it.
pub fn rows_and_commands_keep_the_records()
    ensures row { RowKeepsRecords }
    ensures request { RequestIsAccepted }
    ensures other { OtherIsAccepted }
    ensures kept { AcceptedKeepsRecords }
{}

/// A queue that changes is recorded as it is then: once a request is published, behind others, as the first one, or while the queue head is halted, and once a halted
/// queue head goes on.
pub fn published_requests_are_recorded()
    ensures course { CourseIsRecorded }
    ensures behind { BehindIsPublished }
    ensures first { FirstIsPublished }
    ensures halted { HaltedIsPublished }
    ensures mended { MendedIsRecorded }
{}

/// The window of a request that is done is closed, with exactly one act; where the queue head was halted all are closed, with at most one.
pub fn windows_are_closed()
    ensures first { FirstIsClosed }
    ensures last { LastIsClosed }
    ensures all { AllAreClosed }
{}

/// An endpoint that is met from now on has no windows; one of whose queue nothing more is told leaves its windows closed.
pub fn records_come_and_go()
    ensures begins { NewIsRecorded }
    ensures leaves { CourseIsGone }
{}

/// The qTDs of a request are apart where they lead on, and so are those of two transfers, since each run of blocks has one owner.
pub fn requests_are_apart()
    ensures own { LaidAreApart }
    ensures others { LaidAreOthers }
{}

/// A request whose qTDs and buffers are lent is coming: its data and its status are fresh, and its SETUP is to be stored over the qTD that ended the queue.
pub fn request_is_lent()
    ensures { RequestIsLent }
{}

/// Where a harvest finds a request done, memory shows that its status has ended.
pub fn done_is_ended()
    ensures { DoneIsEnded }
{}
