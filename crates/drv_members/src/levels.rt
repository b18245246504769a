ghost use Rattle.std.specs.Prelude.{◌≡◌, ◌≤◌, ◌<◌, ◌^◌, nat_eq, true};
ghost use Rattle.std.specs.List.{list_any};
ghost use Rattle.drv_chains.specs.Chains.{is_period, frame_period};
ghost use Rattle.drv_chains.specs.Classes.{periods_of};
ghost use Rattle.drv_members.specs.Ranks.{is_queue};

use drv_chains::QueueHead;

/// The level of a period in microframes.
fn level_of_period(period: u16) -> u8
    requires { is_period period ≡ true }
    ensures most { result ≤ 10 }
    ensures class { list_any (λ p. nat_eq period p) (periods_of result) ≡ true }
    ensures frames { frame_period period ≡ 2 ^ result }
{
    match period {
        8192 => 10,
        4096 => 9,
        2048 => 8,
        1024 => 7,
        512 => 6,
        256 => 5,
        128 => 4,
        64 => 3,
        32 => 2,
        16 => 1,
        _ => 0,
    }
}

/// The level of a queue head's class, 0 where its period has one frame, to 10.
pub fn level_of(queue: &QueueHead) -> u8
    requires { is_queue queue.now ≡ true }
    ensures most { result ≤ 10 }
    ensures class { list_any (λ p. nat_eq queue.now.period p) (periods_of result) ≡ true }
    ensures phase { queue.now.phase < 2 ^ result }
{
    level_of_period(queue.period)
}
