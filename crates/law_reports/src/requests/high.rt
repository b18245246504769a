//! Worlds with endpoints of every kind: the requests of control endpoints at high speed (EHCI 1.0, 4.8 and 4.10; USB 2.0, 5.5 and 8.5.3).
ghost use Rattle.std.specs.Prelude.{◌≡◌, true, false};
ghost use Rattle.std.specs.List.{AllByRecursion};
ghost use Rattle.usb_base.specs.declared.packets.Speed.TheVariants.{Low};
ghost use Rattle.law_devices.specs.declared_controls.Samples.{zero};
ghost use Rattle.law_reports.specs.requests.HighAsking.{IsSuited};
ghost use Rattle.law_reports.specs.requests.HighGiven.{high_sides_of, SuitsLine, TextsSuit, beat, beside_interrupt};
ghost use Rattle.law_reports.specs.requests.HighLaws.{NewWorldHighAsks, DriverKeepsHighAsks, ControllerKeepsHighAsks, CommandKeepsHighAsks};
ghost use Rattle.law_reports.specs.requests.HighLaws.{TextsHaveHighAsks};

/// Before the first line of a script there is no request.
pub fn new_world_has_high_asks()
    ensures { NewWorldHighAsks }
{}

/// Each event of the driver leaves the requests of control endpoints at high speed as they must stand, whatever else is open.
pub fn driver_keeps_high_asks()
    ensures { DriverKeepsHighAsks }
{}

/// So does each event of the controller, of the ring or of the frames, with what the run records of the requests.
pub fn controller_keeps_high_asks()
    ensures { ControllerKeepsHighAsks }
{}

/// So does each command, accepted or refused.
pub fn command_keeps_high_asks()
    ensures { CommandKeepsHighAsks }
{}

/// So it is at each moment of each script that a text spells.
pub fn texts_have_high_asks()
    ensures { TextsHaveHighAsks }
{}

/// Each command of each text suits: the endpoint that it opens has a name of its kind, and stands behind a hub just where it isn't of high
/// speed; a device's control endpoint at high speed is on the bus with its replies; and each request is whole.
pub fn texts_suit()
    ensures { TextsSuit }
{}

/// So it is of a script that opens a device's control endpoint beside an interrupt endpoint of it, makes a request, and cancels it: of the
/// requests of the first all this is said. A control endpoint at low speed that stands behind no hub doesn't suit.
pub fn requests_beside_an_interrupt_endpoint()
    ensures suits { AllByRecursion (λ l. SuitsLine (high_sides_of beside_interrupt) l.1) beside_interrupt.lines }
    ensures asked { (high_sides_of beside_interrupt).asks zero ≡ true }
    ensures unasked { (high_sides_of beside_interrupt).asks beat ≡ false }
    ensures slow { IsSuited (high_sides_of beside_interrupt) (record zero { speed = Low }) → ⊥ }
{}
