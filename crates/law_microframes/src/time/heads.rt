//! How often the walk of the ring reads the head of the reclamation list with no transaction between (EHCI 1.0, 4.8, 4.8.3 and 4.8.6).
ghost use Rattle.law_microframes.specs.time.HeadReads.{EventsReadTheHead, WorldsLeaveReclamation, ScriptsReadFewHeads, TextsReadFewHeads};

/// Reclamation is 1 at the first event of the asynchronous part; reading the head leaves it 0, only a transaction sets it again, and a read of the head ends the part exactly
/// where Reclamation is 0.
pub fn events_read_the_head()
    ensures { EventsReadTheHead }
{}

/// No event of the driver and no command writes Reclamation.
pub fn worlds_leave_reclamation()
    ensures { WorldsLeaveReclamation }
{}

/// So at each moment of a run, since the last transaction in the ring and since the part began, the head was read at most once while the part goes on, and the next event that reads it
/// ends the part.
pub fn the_head_is_read_once_and_ends_the_part()
    ensures scripts { ScriptsReadFewHeads }
    ensures texts { TextsReadFewHeads }
{}
