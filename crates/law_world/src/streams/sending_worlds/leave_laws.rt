//! The laws.
ghost use Rattle.law_world.specs.streams.sending_worlds.LeavingSent.{CancelKeepsSent, StillKeepsSent, ClearKeepsSent};

/// A cancel, accepted or refused, the doorbell with its readings, and the clear of Async Advance leave what is sent of puts.
pub fn a_leave_leaves_what_is_sent()
    ensures cancel { CancelKeepsSent }
    ensures still { StillKeepsSent }
    ensures clear { ClearKeepsSent }
{}
