ghost use Rattle.std.specs.Prelude.{◌≡◌, ◌≤◌, ◌<◌, ◌+◌, ◌*◌, ◌^◌};
ghost use Rattle.drv_chains.specs.Chains.{frame_period, is_active};
ghost use Rattle.drv_members.specs.Ranks.{rank, rank_of, class_low, class_high};

use drv_chains::QueueHead;

/// The rank of a period, in microframes, and a phase.
#[inline]
pub(crate) fn rank_at(period: u16, phase: u16) -> u32
    ensures { result ≡ rank period phase }
{
    8192u32.saturating_sub(period as u32) * 1024 + phase as u32
}

/// The rank of a queue head.
#[inline]
pub(crate) fn rank_of_queue(queue: &QueueHead) -> u32
    ensures { result ≡ rank_of queue.now }
{
    rank_at(queue.period, queue.phase)
}

/// How many frames a period in microframes has, 1 below 8.
#[inline]
pub(crate) fn frames_of(period: u16) -> u16
    ensures value { result ≡ frame_period period }
    ensures some { 1 ≤ result }
{
    (period / 8).max(1)
}

/// Whether the queue head stands in this frame.
#[inline]
pub(crate) fn stands_in_frame(frame: u16, queue: &QueueHead) -> bool
    ensures { result ≡ is_active frame queue.now }
{
    queue.phase == frame % frames_of(queue.period)
}

/// How many phases a level has.
#[inline]
fn phases_of(level: u8) -> u16
    requires { level ≤ 10 }
    ensures phases { result ≡ 2 ^ level }
    ensures most { result ≤ 1024 }
{
    1u16 << level
}

/// The period of a level's queue heads, the longest where it has several.
#[inline]
fn period_of(level: u8) -> u16
    requires { level ≤ 10 }
    ensures { result ≡ 8 * 2 ^ level }
{
    8 * phases_of(level)
}

/// The lowest rank of a class.
pub(crate) fn lowest_of(level: u8, phase: u16) -> u32
    requires { level ≤ 10 }
    ensures { result ≡ class_low level phase }
{
    rank_at(period_of(level), phase)
}

/// The highest rank of a class.
pub(crate) fn highest_of(level: u8, phase: u16) -> u32
    requires { level ≤ 10 }
    ensures { result ≡ class_high level phase }
{
    if level == 0 {
        return 0x100_0000;
    }
    rank_at(period_of(level), phase)
}
