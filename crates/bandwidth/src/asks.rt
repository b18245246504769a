ghost use Rattle.std.specs.Prelude.{◌≡◌, ◌≢◌, ℕ, ◌+◌, ◌*◌, ◌<◌, ◌≤◌, slice_index};
ghost use Rattle.usb_base.specs.Cost.{bus_time, byte_times};
ghost use Rattle.usb_base.specs.Limits.{byte_times_of_microframe};
ghost use Rattle.bandwidth.specs.Placements.{is_classic, IsWant};
ghost use Rattle.bandwidth.specs.Sums.{start_bytes, complete_bytes, sent_bytes, price, cost_in, laid_in, time_of, translator_of, is_at};

use crate::masks::{first_bit, has_bit};
use crate::placements::{Placement, Want};
use crate::translators::Translator;
use usb_base::limits::BYTE_TIMES_OF_MICROFRAME;
use usb_base::{Dir, EpKind, Speed, cost, tt_bytes};

/// Whether a translator serves endpoints of this speed.
pub(crate) fn classic(speed: Speed) -> bool
    ensures { result ≡ is_classic speed }
{
    match speed {
        Speed::High => false,
        Speed::Full | Speed::Low => true,
    }
}

/// The bytes of a classic start-split, `part` microframes after the first.
fn start_size(kind: EpKind, dir: Dir, bytes: u16, part: u8) -> u16
    ensures size { result ≡ start_bytes kind dir bytes part }
    ensures bound { result ≤ bytes }
{
    match (kind, dir) {
        (_, Dir::In) => 0,
        (EpKind::Iso, Dir::Out) => bytes
            .saturating_sub(BYTE_TIMES_OF_MICROFRAME * part as u16)
            .min(BYTE_TIMES_OF_MICROFRAME),
        (_, Dir::Out) => bytes,
    }
}

/// The bytes of a complete-split.
fn complete_size(kind: EpKind, dir: Dir, bytes: u16) -> u16
    ensures size { result ≡ complete_bytes kind dir bytes }
    ensures bound { result ≤ bytes }
{
    match (kind, dir) {
        (_, Dir::Out) => 0,
        (EpKind::Iso, Dir::In) => bytes.min(BYTE_TIMES_OF_MICROFRAME),
        (_, Dir::In) => bytes,
    }
}

/// The bytes of the transaction of an S-mask bit, `part` microframes after the first.
fn sent_size(want: &Want, part: u8) -> u16
    ensures size { result ≡ sent_bytes want.now part }
    ensures bound { result ≤ want.now.max }
{
    if classic(want.speed) {
        start_size(want.kind, want.dir, want.max, part)
    } else {
        want.max
    }
}

/// The price of the transactions of one microframe with so many bytes each, in picoseconds.
fn price_of(want: &Want, bytes: u16) -> u64
    requires size { bytes ≤ 1024 }
    ensures price { result ≡ price want.now bytes }
    ensures bound { result ≤ want.now.multi * 21000000 }
{
    want.multi as u64 * cost(Speed::High, want.kind, want.dir, bytes).0
}

/// The bus time of microframe `m` of an active frame, in picoseconds.
pub(crate) fn cost_of(want: &Want, placement: &Placement, m: u8) -> u64
    requires want { IsWant want.now }
    requires microframe { m < 8 }
    ensures cost { result ≡ cost_in want.now placement.now m }
    ensures bound { result ≤ 63000000 }
{
    if has_bit(placement.smask, m) {
        return price_of(
            want,
            sent_size(want, m.saturating_sub(first_bit(placement.smask))),
        );
    }
    if has_bit(placement.cmask, m) {
        return price_of(want, complete_size(want.kind, want.dir, want.max));
    }
    0
}

/// The byte-times laid in the translator in microframe `m` of an active frame; none at high speed.
pub(crate) fn laid_of(want: &Want, placement: &Placement, m: u8) -> u64
    requires want { IsWant want.now }
    requires microframe { m < 8 }
    ensures laid { result ≡ laid_in want.now placement.now m }
    ensures bound { result ≤ byte_times_of_microframe }
{
    let first = first_bit(placement.smask);
    if m < first || !classic(want.speed) {
        return 0;
    }
    let all = tt_bytes(want.speed, want.kind, want.max) as u64;
    all.saturating_sub(BYTE_TIMES_OF_MICROFRAME as u64 * (m - first) as u64)
        .min(BYTE_TIMES_OF_MICROFRAME as u64)
}

/// The classic bus time of an active frame, in picoseconds.
pub(crate) fn time_in_frame(want: &Want) -> u64
    requires want { IsWant want.now }
    ensures time { result ≡ time_of want.now }
    ensures bound { result ≤ 7000000000 }
{
    cost(want.speed, want.kind, want.dir, want.max).0
}

/// The bus times of the eight microframes of an active frame, in picoseconds.
pub(crate) fn costs_of(want: &Want, placement: &Placement) -> [u64; 8]
    requires { IsWant want.now }
    ensures costs { (m : ℕ) → m < 8 → slice_index result m ≡ cost_in want.now placement.now m }
    ensures bound { (m : ℕ) → m < 8 → slice_index result m ≤ 63000000 }
{
    let mut costs = [0; 8];
    for m in 0..8 {
        costs[m as usize] = cost_of(want, placement, m);
    }
    costs
}

/// The byte-times laid in the eight microframes of an active frame.
pub(crate) fn byte_times_of(want: &Want, placement: &Placement) -> [u64; 8]
    requires { IsWant want.now }
    ensures laid { (m : ℕ) → m < 8 → slice_index result m ≡ laid_in want.now placement.now m }
    ensures bound { (m : ℕ) → m < 8 → slice_index result m ≤ byte_times_of_microframe }
{
    let mut bytes = [0; 8];
    for m in 0..8 {
        bytes[m as usize] = laid_of(want, placement, m);
    }
    bytes
}

/// The translator that serves it, for a full- or low-speed endpoint alone.
pub(crate) fn translator_for(want: &Want) -> Option<Translator>
    requires { IsWant want.now }
    ensures { result ≡ translator_of want.now }
{
    match want.hub {
        Some(hub) => Some(Translator::new(hub, want.tt)),
        None => None,
    }
}

/// Whether this translator serves it.
pub(crate) fn is_served_by(want: &Want, translator: Translator) -> bool
    ensures { result ≡ is_at want.now translator }
{
    match want.hub {
        Some(hub) => translator.is(hub, want.tt),
        None => false,
    }
}
