//! Worked pipes and requests, event by event.
ghost use Rattle.law_translated.specs.WorkedPipes.{TwoFrames, LostStart, LostAcknowledgement, LostAnswer, LateResultBreaks};
ghost use Rattle.law_translated.specs.WorkedPipes.{RepeatedStart, ToldAgain, TakenOver, ClearedBefore, ClearBreaks, PlainRepeat};
ghost use Rattle.law_translated.specs.WorkedPipes.{ThreePuts, RepeatedPacket, ClearedTaken, ThirdSilence, WorksOn, StaleEntry};
ghost use Rattle.law_translated.specs.WorkedRequests.{RepeatedStatus, ActsAfterTheEnd, ReadComesTrue, ShortPacketBreaks, WriteComesTrue, OldActBreaks};

/// Losses of an IN pipe through a pipeline are made good, but a lost last answer leaves the host waiting for what is gone.
pub fn pipeline_losses()
    ensures plain { TwoFrames }
    ensures start { LostStart }
    ensures acknowledgement { LostAcknowledgement }
    ensures answer { LostAnswer }
{}

/// Where a result isn't there at the last complete-split, a packet is lost.
pub fn a_late_result_loses_a_packet()
    ensures { LateResultBreaks }
{}

/// Losses of an IN pipe through a buffer are made good, unless another key takes a buffer that was told.
pub fn buffer_losses()
    ensures start { RepeatedStart }
    ensures answer { ToldAgain }
    ensures taken { TakenOver }
    ensures cleared { ClearedBefore }
    ensures none { PlainRepeat }
{}

/// A clear of bytes for which the host would ask once more loses a packet.
pub fn a_clear_loses_a_packet()
    ensures { ClearBreaks }
{}

/// Losses and clears of an OUT pipe are made good, and a buffer works on after a cancel.
pub fn outward_losses()
    ensures put { ThreePuts }
    ensures acknowledgement { RepeatedPacket }
    ensures cleared { ClearedTaken }
    ensures silences { ThirdSilence }
    ensures cancelled { WorksOn }
{}

/// Where a start that a pipeline doesn't hear finds an entry that was told, the two ends don't agree.
pub fn a_told_entry_is_stale()
    ensures { StaleEntry }
{}

/// A repeated status of a request without data is acted on once, also after the host's end.
pub fn a_status_is_acted_on_once()
    ensures repeated { RepeatedStatus }
    ensures ended { ActsAfterTheEnd }
{}

/// A read of one packet is done through the two buffers, and one whose first packet is short already isn't whole.
pub fn a_read_comes_true()
    ensures right { ReadComesTrue }
    ensures breaks { ShortPacketBreaks }
{}

/// A write of one packet is done through the two buffers, and one on a line on which the device had acted before isn't right.
pub fn a_write_comes_true()
    ensures right { WriteComesTrue }
    ensures breaks { OldActBreaks }
{}
