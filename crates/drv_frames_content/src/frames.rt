ghost use Rattle.std.specs.Prelude.{◌≡◌, ◌≤◌, ◌<◌};
ghost use Rattle.usb_base.specs.Limits.{frame_list_length};
ghost use Rattle.bandwidth.specs.Placements.{frame_period};
ghost use Rattle.drv_periodic_table.specs.Frames.{first_frame, frames_from, next_frame, list_frame};

use bandwidth::Placement;
use usb_base::limits::FRAME_LIST_LENGTH;

/// The frames of a period, 1 below 8 microframes.
fn frames_in(period: u16) -> u16
    ensures frames { result ≡ frame_period period }
    ensures some { 1 ≤ result }
{
    (period / 8).max(1)
}

/// The element of the frame list at which the list stands, by a reading of FRINDEX (EHCI 1.0, 2.3.4).
fn frame_of_list(frindex: u16) -> u16
    ensures frame { result ≡ list_frame frindex }
    ensures few { result < frame_list_length }
{
    frindex / 8 % FRAME_LIST_LENGTH as u16
}

/// The first frame of a placement at or after this one.
fn frame_from(placement: &Placement, frame: u16) -> u16
    requires few { frame ≤ 2048 }
    ensures { result ≡ next_frame placement.now frame }
{
    let frames = frames_in(placement.period);
    let behind = (placement.phase as u32 + frames as u32 - (frame % frames) as u32) % frames as u32;
    ((frame as u32 + behind) % FRAME_LIST_LENGTH) as u16
}

/// The frame one period after this one.
pub fn frame_after(placement: &Placement, frame: u16) -> u16
    ensures { result ≡ frames_from placement.now frame 1 }
{
    ((frame as u32 + frames_in(placement.period) as u32) % FRAME_LIST_LENGTH) as u16
}

/// The first frame of a command, by a reading of FRINDEX and the frame of the last descriptor that is outstanding.
pub fn first_of_command(placement: &Placement, frindex: u16, last: Option<u16>) -> u16
    ensures { result ≡ first_frame placement.now frindex last }
{
    match last {
        Some(frame) => frame_after(placement, frame),
        None => frame_from(placement, frame_of_list(frindex) + 2),
    }
}
