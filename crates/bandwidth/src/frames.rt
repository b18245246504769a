ghost use Rattle.std.specs.Prelude.{◌≡◌, ℕ, ◌+◌, ◌*◌, ◌/◌, ◌%◌, ◌<◌, ◌≤◌, true};
ghost use Rattle.usb_base.specs.Limits.{frame_list_length};
ghost use Rattle.bandwidth.specs.Placements.{is_period, frame_period, IsPlace};
ghost use Rattle.bandwidth.specs.Sums.{is_active};

use crate::placements::Placement;
use usb_base::limits::FRAME_LIST_LENGTH;

/// How many frames a period has, 1 below 8 microframes.
#[inline(always)]
#[tactic(auto, using(crate::proofs::Turns::whole_of))]
pub(crate) fn frames_of(period: u16) -> u16
    requires { is_period period ≡ true }
    ensures value { result ≡ frame_period period }
    ensures some { 1 ≤ result }
    ensures most { result ≤ frame_list_length }
{
    (period / 8).max(1)
}

/// In how many of the 1,024 frames a placement is active.
#[inline(always)]
pub(crate) fn turns(placement: &Placement) -> u16
    requires { IsPlace placement.now }
    ensures { result ≡ frame_list_length / frame_period placement.now.period }
{
    FRAME_LIST_LENGTH as u16 / frames_of(placement.period)
}

/// The active frame number `k` of a placement, from 0.
#[inline(always)]
pub(crate) fn active_frame(placement: &Placement, k: u16) -> u32
    requires place { IsPlace placement.now }
    requires turn { k < frame_list_length / frame_period placement.now.period }
    ensures bound { result < frame_list_length }
    ensures active { is_active placement.now result ≡ true }
    ensures turn { result / frame_period placement.now.period ≡ k }
    ensures only { (f : ℕ) → is_active placement.now f ≡ true → f / frame_period placement.now.period ≡ k → f ≡ result }
{
    placement.phase as u32 + k as u32 * frames_of(placement.period) as u32
}
