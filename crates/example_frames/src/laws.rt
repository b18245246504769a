ghost use Rattle.hc_core.specs.Controller.{Content, microframe_row, HasRow};
ghost use Rattle.example_frames.specs.Runs.{BothAreTold};

use usb_base::Wire;

/// Each event of a controller that runs with its asynchronous schedule on, over a ring and the frames, leaves both, and is told by what it does to the
/// structures; whatever is in hand, and whether its periodic schedule is on or off.
pub fn each_event_leaves_both<W: Wire>()
    ensures { (old : Content) (before : W) (new : Content) (after : W) → HasRow W.begins W.transacts (microframe_row old.registers old.control) old before new after
        → BothAreTold W.begins W.transacts old before new after }
{}
