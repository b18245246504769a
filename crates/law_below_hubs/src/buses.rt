//! The bus below a hub and the high-speed bus, for each endpoint wherever its device is.
ghost use Rattle.law_below_hubs.specs.Buses.{SendersBelow, TakersBelow, ControlsAnswerBelow, SendersAbove, TakersAbove};
ghost use Rattle.law_below_hubs.specs.SeatedControls.{ControlsOn, ControlsAt};

/// An IN endpoint sends its stream by the toggle on the bus that it is on, and hears nothing of the other one.
pub fn senders_are_on_each_bus()
    ensures below { SendersBelow }
    ensures above { SendersAbove }
{}

/// An OUT endpoint takes its stream by the toggle on the bus that it is on, and hears nothing of the other one.
pub fn takers_are_on_each_bus()
    ensures below { TakersBelow }
    ensures above { TakersAbove }
{}

/// A control endpoint behind an enabled port answers by its stage on the bus below the hub.
pub fn controls_answer_below()
    ensures { ControlsAnswerBelow }
{}

/// A control endpoint answers by its stage on the bus that it is on, and hears nothing of the other one.
pub fn controls_are_on_each_bus()
    ensures below { ControlsOn }
    ensures above { ControlsAt }
{}
