//! The line of a cancel of a control endpoint at high speed (EHCI 1.0, 4.8.2 and 4.10; USB 2.0, 8.5.3).
ghost use Rattle.law_devices.specs.Controls.{control_of};
ghost use Rattle.law_reports.specs.requests.CancelLine.{RequestIsCounted, CancelIsBegun, CourseBegins, MetBegins, WaitsAreUnreported};
ghost use Rattle.law_reports.specs.requests.LeftStays.{StepLeavesTold, EventLeavesTold};
ghost use Rattle.law_reports.specs.requests.LeftTold.{DriverKeepsCancels, ControllerKeepsCancels, CommandKeepsCancels, TextsHaveCancels};
ghost use Rattle.law_reports.specs.requests.LeftTold.{TextsTellCancels};

/// Of a request that waits it tells the bytes that were moved of its data, whether the driver read them or not; none of its SETUP and of
/// its status.
pub fn a_request_is_counted()
    ensures { RequestIsCounted }
{}

/// Where they begin its data, and so of each that waits, the line tells such beginnings, joined in the order of the requests.
pub fn a_cancel_is_begun()
    ensures { CancelIsBegun }
{}

/// What is told of the data of any request of a queue begins them, whether it is done, under way or behind, and so the data that the script
/// has for it; and those that wait are those that no line tells of.
pub fn those_that_wait_begin()
    ensures begins { CourseBegins control_of }
    ensures met { MetBegins }
    ensures waits { WaitsAreUnreported }
{}

/// Until an endpoint that left is given back, each event of the driver leaves what is told of its requests that wait, and each event of the
/// controller leaves all that is told of it.
pub fn what_is_told_stays()
    ensures driver { StepLeavesTold }
    ensures controller { EventLeavesTold }
{}

/// Each event and each command leave what is told of the endpoints that left, and, once they were given back, by the line of their cancel.
pub fn what_left_is_told()
    ensures driver { DriverKeepsCancels }
    ensures controller { ControllerKeepsCancels }
    ensures command { CommandKeepsCancels }
    ensures texts { TextsHaveCancels }
{}

/// Of each text, whatever it opens, all lines of a control endpoint at high speed that was cancelled tell of its requests in their order: that
/// of the cancel tells beginnings of the data of all requests that no line told of, joined.
pub fn texts_tell_cancels()
    ensures { TextsTellCancels }
{}
