//! The laws.
ghost use Rattle.law_world.specs.streams.put_laws.SentRows.{FewerAreSent, AcceptedSends, QuietSends, HarvestSends, ReleaseSends};
ghost use Rattle.law_world.specs.streams.put_laws.Mends.{MendIsInHead, MendSends, MendStops};
ghost use Rattle.law_world.specs.streams.put_laws.SentRead.{PutsMoveAll, PutsLeaveNone, DoneIsTold, PutsAreTold};

use usb_base::Wire;

/// So does an accepted command, a row that stores nothing, a harvest, and one that gives a transfer's blocks back.
pub fn other_rows_send_whole()
    ensures fewer { FewerAreSent }
    ensures command { AcceptedSends }
    ensures quiet { QuietSends }
    ensures harvest { HarvestSends }
    ensures release { ReleaseSends }
{}

/// Of each qTD of a put that a harvest finds done, and not halted, all bytes were moved: those of its buffer.
pub fn a_done_put_was_sent()
    ensures read { PutsMoveAll }
    ensures none { PutsLeaveNone }
    ensures done { DoneIsTold }
    ensures told { PutsAreTold }
{}

/// The stores that a stalled control endpoint is owed go to its queue head, and leave what each OUT endpoint sends.
pub fn a_mend_sends_whole()
    ensures place { MendIsInHead }
    ensures sends { MendSends }
    ensures stops { MendStops }
{}
