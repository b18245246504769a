//! What a run of a script tells and hears, and why (EHCI 1.0, 4.6 to 4.12; USB 2.0, 8.4 to 8.6 and 11.14 to 11.18): the causes of
//! refusals, who hears each packet, when the driver rests, and the reasons of its lines.
//!
//! The module has no code of its own: each function is a law over the definitions of `bus_world`, and its body is empty.

ghost use Rattle.law_reports.specs.answers.Laws.{TextsHaveCauses, TextsAreHeard, TextsRestWhenDone, TextsTellForReasons, TextsCountPending};
ghost use Rattle.law_reports.specs.answers.Adding.{CommandsAddWhatTheyAsk, AGetAddsItsBytes, NoBytesAddedIsWrong, NothingAddedIsWrong};
ghost use Rattle.law_reports.specs.answers.Seated.{BusHasEndpoints, AHubIsSeated, NoEndpointsIsWrong};
ghost use Rattle.std.specs.Prelude.{[], ◌∷◌};
ghost use Rattle.law_reports.specs.answers.Together.{FitTogether, FittingOpensHavePlaces};
ghost use Rattle.law_reports.specs.answers.TogetherSamples.{asked_each_frame, three_each_microframe};
ghost use Rattle.law_reports.specs.answers.Counting.{EventsCountDown, ClosingsTellPending, OneLineForOneGet, TwoLinesForOneGet, AGetAddsUp, ALineIsMissing};

/// Each command of a script is refused for the first cause that stands, or none stands, and it is accepted.
pub fn texts_have_causes()
    ensures { TextsHaveCauses }
{}

/// A command that is accepted adds what it asks for: an endpoint, a transfer whose qTDs have its bytes, descriptors, or a cancel.
pub fn commands_add_what_they_ask()
    ensures { CommandsAddWhatTheyAsk }
{}

/// A get adds a transfer of its bytes.
pub fn a_get_adds_its_bytes()
    ensures { AGetAddsItsBytes }
{}

/// A transfer of which no byte may be told isn't what a get adds; nor is none.
pub fn adding_is_broken_by_no_bytes_and_by_no_transfer()
    ensures bytes { NoBytesAddedIsWrong }
    ensures transfer { NothingAddedIsWrong }
{}

/// Each ask of the controller is heard as the lines of the script and the ports of its hubs say.
pub fn texts_are_heard()
    ensures { TextsAreHeard }
{}

/// The endpoints that stand on the bus are those of the script.
pub fn bus_has_endpoints()
    ensures { BusHasEndpoints }
{}

/// With a hub and a device below it both are asked.
pub fn a_hub_is_seated()
    ensures { AHubIsSeated }
{}

/// A bus with no endpoints isn't that of a script with a hub.
pub fn no_endpoints_is_wrong()
    ensures { NoEndpointsIsWrong }
{}

/// The driver rests only where all that it was asked for is done.
pub fn texts_rest_when_done()
    ensures { TextsRestWhenDone }
{}

/// Each line that the driver writes has its reason in the words that it reads.
pub fn texts_tell_for_reasons()
    ensures { TextsTellForReasons }
{}

/// Each line of a driver leaves one transfer less of its endpoint without a line, or none; and what is left is told as pending.
pub fn what_has_no_line_is_pending()
    ensures events { EventsCountDown }
    ensures closings { ClosingsTellPending }
    ensures texts { TextsCountPending }
{}

/// The line of a get leaves one less; a get has one line, or none yet.
pub fn one_line_counts_one_get()
    ensures less { OneLineForOneGet }
    ensures adds_up { AGetAddsUp }
{}

/// Two lines of one get don't; nor does it add up that a get was told without a line.
pub fn counting_is_broken_by_two_lines_and_by_none()
    ensures two { TwoLinesForOneGet }
    ensures none { ALineIsMissing }
{}

/// Where the periodic endpoints that a script opens fit the budgets of bus time together, wherever they are placed, none of its opens is
/// refused for want of a placement.
pub fn fitting_opens_have_places()
    ensures { FittingOpensHavePlaces }
{}

/// Two keyboards fit together.
pub fn two_keyboards_fit()
    ensures { FitTogether (asked_each_frame ∷ asked_each_frame ∷ []) }
{}

/// Two cameras that take more than half of each microframe don't.
pub fn two_cameras_do_not_fit()
    ensures { FitTogether (three_each_microframe ∷ three_each_microframe ∷ []) → ⊥ }
{}
