ghost use Rattle.std.specs.Prelude.{◌≡◌, ◌≤◌, ◌<◌, ◌*◌, ◌^◌};
ghost use Rattle.hub_keys.specs.Asks.{counted_bytes, classic_of, work_of, stuffed as with_stuffed_bits};

use usb_base::{Ask, EpKind, Pid, Speed, Split};

/// The ask on the bus below that a start-split stands for: plain, and with room for 1,024 bytes.
pub fn classic_ask(ask: &Ask) -> Ask
    ensures { result ≡ classic_of ask.now }
{
    Ask {
        split: Split::Plain,
        limit: 1024,
        ..*ask
    }
}

/// The bytes that a start-split is counted with: the limit of an IN, the bytes sent of any other.
fn counted(ask: &Ask, sent: u16) -> u16
    ensures { result ≡ counted_bytes ask.now.pid ask.now.limit sent }
{
    match ask.pid {
        Pid::In => ask.limit,
        _ => sent,
    }
}

/// The byte-times that the transaction of a start-split takes on the bus below, where the start carried `sent` bytes
/// (USB 2.0, 11.18); 0 at high speed, which no translator serves.
pub fn work(ask: &Ask, sent: u16) -> u32
    ensures value { result ≡ work_of ask.now sent }
    ensures bound { result ≤ 524384 }
{
    let bytes = counted(ask, sent) as u32;
    match (ask.speed, ask.kind) {
        (Speed::Full, EpKind::Iso) => bytes + 9,
        (Speed::Full, _) => bytes + 13,
        (Speed::Low, _) => 8 * (bytes + 13),
        (Speed::High, _) => 0,
    }
}

/// So many byte-times with their stuffed bits, where those make 36 bytes longer by `stuff` (USB 2.0, 7.1.9); rounded down.
pub fn stuffed(times: u64, stuff: u8) -> u64
    requires { times < 2 ^ 40 }
    ensures value { result ≡ with_stuffed_bits times stuff }
    ensures bound { times ≤ result }
    ensures most { result ≤ times * 9 }
{
    times + times * stuff as u64 / 36
}
