ghost use Rattle.std.specs.Prelude.{◌≡◌, ◌<◌, IsTrue};
ghost use Rattle.drv_chains.specs.Chains.{is_period};
ghost use Rattle.drv_members.specs.Ranks.{is_queue};
ghost use Rattle.drv_members.specs.Members.{IsMember, is_member};

use crate::order::frames_of;
use drv_chains::{Member, QueueHead};
use usb_base::limits::FRAME_LIST_LENGTH;

/// Whether this is a period in microframes: a power of two from 1 to 8,192.
fn is_one_period(period: u16) -> bool
    ensures { result ≡ is_period period }
{
    period == 8192
        || period == 4096
        || period == 2048
        || period == 1024
        || period == 512
        || period == 256
        || period == 128
        || period == 64
        || period == 32
        || period == 16
        || period == 8
        || period == 4
        || period == 2
        || period == 1
}

/// Whether a queue head's period is one, and its phase is one of the period's frames.
pub(crate) fn is_in_range(queue: &QueueHead) -> bool
    ensures { result ≡ is_queue queue.now }
{
    is_one_period(queue.period) && queue.phase < frames_of(queue.period)
}

/// Whether this may be a member of the frame list.
pub fn may_be_member(member: &Member) -> bool
    ensures test { result ≡ is_member member.now }
    ensures member { IsTrue result → IsMember member.now }
{
    match member {
        Member::Once(descriptor) => descriptor.frame < FRAME_LIST_LENGTH as u16,
        Member::Each(queue) => is_in_range(queue),
    }
}
