//! The laws.
ghost use Rattle.law_devices.specs.declared_controls.Laws.{TextsOpenControls, TextsNameEndpoints, TextsAskRequests, AcceptedAreRequests, TextsLeaveZeroAlone};
ghost use Rattle.law_devices.specs.declared_controls.Laws.{TransactionLeavesZero, MicroframeLeavesZero, ZeroIsNoStream, ControlIsNoStream};

/// Each high-speed control endpoint of a device that a text opens is on the bus of the script, before its first SETUP, with the replies and the NAKs of
/// its lines.
pub fn texts_open_controls()
    ensures { TextsOpenControls }
{}

/// Control endpoints have number 0 and packets of at most 64 bytes, all others a number from 1 to 15 and one way.
pub fn texts_name_endpoints()
    ensures { TextsNameEndpoints }
{}

/// Each request of a text is of endpoint 0, with eight setup bytes and as many bytes as a write announces; so are those that a report doesn't refuse.
pub fn requests_are_whole()
    ensures text { TextsAskRequests }
    ensures accepted { AcceptedAreRequests }
{}

/// Number 0 is that of control endpoints alone: at the opening, after each transaction, and after each beginning of a microframe.
pub fn number_zero_is_of_control_endpoints()
    ensures opening { TextsLeaveZeroAlone }
    ensures transaction { TransactionLeavesZero }
    ensures microframe { MicroframeLeavesZero }
{}

/// Nothing is sent or taken at number 0, or wherever the bus has a control endpoint.
pub fn a_control_endpoint_is_no_stream()
    ensures zero { ZeroIsNoStream }
    ensures control { ControlIsNoStream }
{}
