//! The window of a request to a scripted device, with a translator between it and the host or without.
ghost use Rattle.law_request.specs.Host.{Endpoint};
ghost use Rattle.claims_report.specs.Requests.{Request};
ghost use Rattle.law_translated.specs.Windows.{KeepsWindow, WindowIsRight, TransactionIsAnEvent};
ghost use Rattle.law_translated.specs.WorkedWindows.{WindowComesTrue, OtherSizeBreaks};

/// Whatever happens between host and device, the device acts at most once in the window of a request and on nothing else, and a request
/// that is done was acted on once and moved all its data.
pub fn a_window_is_right()
    ensures keeps { (e : Endpoint) → (r : Request) → KeepsWindow e r }
    ensures right { (e : Endpoint) → (r : Request) → WindowIsRight e r }
{}

/// At high speed each transaction of a request is one event of the same machine, whatever is lost.
pub fn a_transaction_is_an_event()
    ensures { (e : Endpoint) → (r : Request) → TransactionIsAnEvent e r }
{}

/// In the window of a request without data the device acts once, though its answer to the status is lost once, and a device with another
/// packet size than the host's makes a read that isn't whole.
pub fn a_window_comes_true()
    ensures right { WindowComesTrue }
    ensures breaks { OtherSizeBreaks }
{}
