//! Worked starts below a hub, which the check computes.
ghost use Rattle.std.specs.Prelude.{◌≡◌, [], ◌∷◌, Some, None};
ghost use Rattle.law_below_hubs.specs.InWork.{sender_of_line};
ghost use Rattle.law_below_hubs.specs.Raised.{sender_below};
ghost use Rattle.law_below_hubs.specs.Seated.{sender_at, sender_on};
ghost use Rattle.law_below_hubs.specs.WorkedBelow.{StartIsTaken, ResultIsThere, OtherKindBreaks, NamesTheHub, wrong, before, after};
ghost use Rattle.law_below_hubs.specs.WorkedBelow.{enabled_below, disabled_below};
ghost use Rattle.law_below_hubs.specs.WorkedControl as read;
ghost use Rattle.law_below_hubs.specs.WorkedHosts as hosts;
ghost use Rattle.law_below_hubs.specs.WorkedMoves as moves;
ghost use Rattle.law_below_hubs.specs.WorkedPut as put;
ghost use Rattle.law_below_hubs.specs.WorkedRequests as lossy;
ghost use Rattle.law_below_hubs.specs.WorkedWindows as windows;
ghost use Rattle.bus_wire.specs.Samples.{opened, stepped, Begins};

/// A start that is taken, and the result that is there a microframe later; one of another kind breaks the premises, and the device sends.
pub fn a_start_comes_true()
    ensures taken { StartIsTaken }
    ensures there { ResultIsThere }
    ensures names { NamesTheHub }
    ensures breaks { OtherKindBreaks }
    ensures sends { sender_at (stepped wrong (Begins 1)) 3 1 ≡ Some (sender_of_line after) }
{}

/// An endpoint behind an enabled port is on the bus below, and behind a disabled one it isn't, though it has what it had.
pub fn a_port_is_disabled()
    ensures enabled { sender_below enabled_below 3 1 ≡ Some (sender_of_line before) }
    ensures disabled { sender_below disabled_below 3 1 ≡ None }
    ensures has { sender_on disabled_below 3 1 ≡ Some (sender_of_line before) }
{}

/// A start that brings a byte is taken, and the device has the byte a microframe later; data without a toggle break the premises.
pub fn a_put_comes_true()
    ensures taken { put.StartIsTaken }
    ensures there { put.ResultIsThere }
    ensures breaks { put.NoToggleBreaks }
{}

/// The SETUP, the data and the status of a read: each is taken, and its result is there a microframe later. A start of another kind breaks
/// the premises, and one that names a hub which isn't there does nothing.
pub fn a_read_comes_true()
    ensures setup { read.SetupComesTrue }
    ensures moved { read.DataComeTrue }
    ensures status { read.StatusComesTrue }
    ensures hears { read.HostHears }
    ensures breaks { read.OtherKindBreaks }
    ensures no_hub { read.NoHubHears }
{}

/// The premises of the work of a control endpoint, at the SETUP and at the data of a read; an IN that is asked while the SETUP still is
/// breaks them, and so do a host that has no room for the data, and one that asks something else.
pub fn a_read_is_in_turn()
    ensures setup { read.SetupIsInTurn }
    ensures moved { read.DataAreInTurn }
    ensures breaks { read.OutOfTurnBreaks }
    ensures too_long { read.TooLongBreaks }
    ensures stands { read.SetupStands }
    ensures wrong { read.WrongAskBreaks }
{}

/// Before the first start of an OUT, once its host heard the ACK, and when the result came, all three stand as they must; not where the
/// host sent nothing. So they do for an IN, but not with a device that has nothing to send.
pub fn hosts_stand_below()
    ensures opens { hosts.Opens }
    ensures starts { hosts.Starts }
    ensures result { hosts.ResultComes }
    ensures unsent { hosts.UnsentBreaks }
    ensures read { hosts.ReadStarts }
    ensures no_stream { hosts.NoStreamBreaks }
{}

/// The host of an interrupt IN waits for a result that is gone with its frame, where its device knows that the packet was taken. It isn't
/// in time; and where it gave up, host and device wouldn't stand to each other as they must.
pub fn a_lost_result_is_waited_for()
    ensures waits { hosts.LostWaits }
    ensures late { hosts.LateBreaks }
    ensures given_up { hosts.GivenUpBreaks }
{}

/// The start of an interrupt OUT finds nothing that was told in a pipeline in which its first start just came, and so nothing is worked;
/// it does where that is worked, and its result was told.
pub fn a_fresh_start_is_untold()
    ensures fresh { hosts.FreshIsUntold }
    ensures stale { hosts.StaleBreaks }
{}

/// The queue head of a full-speed endpoint meets the premises of an event, and one that tells high speed doesn't.
pub fn a_queue_head_is_below()
    ensures full { hosts.IsBelow }
    ensures high { hosts.HighBreaks }
{}

/// A read with a packet lost on each bus: before it nothing is asked; once the hub's ACK is lost host, hub and device stand as they must,
/// and so they do in the microframe after; its queue head works on its SETUP. The host hears the hub's answers in the end, and the device
/// acted once. With starts in both directions at once they don't stand so.
pub fn a_lossy_read_comes_true()
    ensures rests { lossy.HubRestsFirst }
    ensures lost { lossy.AnswerIsLost }
    ensures after { lossy.IsAfterMicroframe }
    ensures works { lossy.WorksFirst }
    ensures heard { lossy.LossHeard }
    ensures once { lossy.ActedOnce }
    ensures breaks { lossy.BothAskedBreaks }
{}

/// So they do as memory has its qTDs, with a full-speed queue head, and not with one that tells high speed; so does the read as the only
/// request of its endpoint, and none is under way behind it.
pub fn memory_shows_a_lossy_read()
    ensures stands { windows.WindowStands }
    ensures high { windows.HighBreaks }
    ensures requests { windows.RequestsStand }
    ensures none_left { windows.NoneLeftBreaks }
{}

/// In the microframe after the lost ACK it goes on; before it nothing is asked of its endpoint, whose queue head is idle, and so it stays
/// where a microframe begins; with a queue head that works it isn't so. Once its SETUP is stored there its window opens. Memory shows the
/// read as that of any queue head, and this one isn't of high speed.
pub fn a_lossy_read_goes_on()
    ensures moves { moves.MovesOn }
    ensures rests { moves.IsAtRest }
    ensures working { moves.WorkingBreaks }
    ensures opens { moves.Opens }
    ensures alike { moves.AskedAlike }
    ensures not_high { moves.NotHigh }
{}
