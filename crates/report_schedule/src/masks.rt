//! The microframes of a frame that a mask has (EHCI 1.0, 3.6.2), microframe 0 in bit 0.
ghost use Rattle.std.specs.Prelude.{◌≡◌, ◌+◌, ◌<◌, ◌≤◌};
ghost use Rattle.bandwidth.specs.Placements.{run, every, has, first_in};

/// Whether microframe `m` of a frame stands in the mask.
pub(crate) fn has_bit(mask: u8, m: u8) -> bool
    requires { m < 8 }
    ensures { result ≡ has mask m }
{
    (mask >> m) % 2 == 1
}

/// The lowest microframe of a mask, 8 for none.
pub(crate) fn first_bit(mask: u8) -> u8
    ensures value { result ≡ first_in mask }
    ensures bound { result ≤ 8 }
{
    for m in 0..8 {
        if has_bit(mask, m) {
            return m;
        }
    }
    8
}

/// The mask of `count` microframes from `from` on.
#[tactic(auto, using(bandwidth::proofs::Microframes::mask_none, bandwidth::proofs::Microframes::mask_whole, bandwidth::proofs::Microframes::mask_more, bandwidth::proofs::Microframes::mask_fits))]
pub(crate) fn run_of(from: u8, count: u8) -> u8
    requires { from + count ≤ 8 }
    ensures { result ≡ run from count }
{
    let mut mask = 0u8;
    for m in 0..8 {
        if from <= m && m < from + count {
            mask += 1 << m;
        }
    }
    mask
}

/// The mask of the microframes `from`, `from + period`, ..
#[tactic(auto, using(bandwidth::proofs::Microframes::mask_none, bandwidth::proofs::Microframes::mask_whole, bandwidth::proofs::Microframes::mask_more, bandwidth::proofs::Microframes::mask_fits))]
pub(crate) fn every_of(period: u8, from: u8) -> u8
    requires { 1 ≤ period }
    ensures { result ≡ every period from }
{
    let mut mask = 0u8;
    for m in 0..8 {
        if m % period == from {
            mask += 1 << m;
        }
    }
    mask
}
