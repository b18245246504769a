//! Worked rows, which the check computes.
ghost use Rattle.std.specs.Prelude.{◌≡◌, [], ◌∷◌, length, count_by, take, drop, Some};
ghost use Rattle.usb_base.specs.declared.packets.Way.TheVariants.{Ctl};
ghost use Rattle.usb_base.specs.declared.packets.EpKind.TheVariants as kinds;
ghost use Rattle.usb_base.specs.declared.reports.OfferError.TheVariants.{Busy};
ghost use Rattle.usb_base.specs.declared.reports.What.TheVariants.{Refused};
ghost use Rattle.usb_base.specs.declared.commands.Cmd.TheVariants.{OpenEp};
ghost use Rattle.script_types.specs.declared.scripts.Event.TheVariants.{D};
ghost use Rattle.script_types.specs.declared.scripts.Line.TheVariants.{Order};
ghost use Rattle.bus_wire.specs.Bus.{fixed_of};
ghost use Rattle.drv_table.specs.DriverContent.{waits_for};
ghost use Rattle.drv_table.specs.Harvesting.{behind};
ghost use Rattle.claims_report.specs.Reports.{Acted, acted};
ghost use Rattle.claims_report.specs.Requests.{data_of, requests};
ghost use Rattle.claims_report.specs.Samples.{two_requests, two_lines, control, read_two, read_unknown, window, line_of, commanded};
ghost use Rattle.claims_world.specs.Streams.{device_closing};
ghost use Rattle.law_world.specs.streams.put_laws.TakenLines.{NumbersRise};
ghost use Rattle.claims_world.specs.Requests.{no_windows, asks_at, windows_of};
ghost use Rattle.law_reports.specs.requests.told_requests.Told.{AreToldTo};
ghost use Rattle.law_reports.specs.requests.told_requests.Asked.{requests_of, requests_to};
ghost use Rattle.law_reports.specs.requests.told_requests.Claims.{CountsActs};
ghost use Rattle.law_reports.specs.requests.told_requests.Samples.{two_windows, later_windows, first_line, stalled_driver, described, first, asking, after, report_after, asked, acted_once};

use usb_base::{EndCause, What};

/// Before the first line both requests are left, and then one, and then none; what is done in the windows of those that are left, and a request more, leave
/// the first line as it is. A request that was never acted on isn't done.
pub fn two_lines_of_two_requests()
    ensures none { AreToldTo [] [] control (data_of two_requests control) two_windows two_windows }
    ensures one { AreToldTo first_line (18 ∷ 1 ∷ []) control (data_of two_requests control) two_windows (window read_unknown [] ∷ []) }
    ensures both { AreToldTo (two_lines 1).lines (18 ∷ 1 ∷ []) control (data_of two_requests control) two_windows [] }
    ensures grown { AreToldTo first_line (18 ∷ 1 ∷ []) control (data_of two_requests control) (window read_two (read_two ∷ []) ∷ later_windows) later_windows }
    ensures never_acted { AreToldTo first_line (18 ∷ 1 ∷ []) control (data_of two_requests control) (window read_two [] ∷ []) [] → ⊥ }
{}

/// Two requests wait behind a stalled one: each has a line without bytes.
pub fn two_requests_behind_a_stalled_one()
    ensures waiting { count_by (waits_for 0) (take 2 (drop 1 stalled_driver.transfers)) ≡ 2 }
    ensures lines { (behind stalled_driver 0 control 1 2).reports ≡ line_of control (What.Halt EndCause.Stall) 0 0 ∷ line_of control (What.Halt EndCause.Stall) 0 0 ∷ [] }
    ensures none_waits { count_by (waits_for 0) (behind stalled_driver 0 control 1 2).transfers ≡ 0 }
{}

/// The first request is accepted, as the driver's first transfer. It begins the requests of the script, among which the second is counted until it is refused.
pub fn a_request_is_accepted()
    ensures numbers { NumbersRise asking }
    ensures transfers { length (after 5).world.driver.transfers ≡ 1 }
    ensures requests { requests_of (after 5).world.driver (asks_at asking 5) 0 ≡ asked read_two ∷ [] }
    ensures windows { windows_of (after 5).world.driver (asks_at asking 5) no_windows 0 ≡ window read_two [] ∷ [] }
    ensures taken { requests_to (report_after 5) (commanded 5 (OpenEp described) ∷ (6, Order D 2) ∷ first ∷ []) control ≡ asked read_two ∷ [] }
    ensures script { requests asking (report_after 5) control ≡ asked read_two ∷ asked read_unknown ∷ [] }
{}

/// The second request is refused, as the first isn't published yet: it is no transfer, and not among the requests.
pub fn a_request_is_refused()
    ensures over { (after 6).orders ≡ [] }
    ensures transfers { length (after 6).world.driver.transfers ≡ 1 }
    ensures told { (after 6).world.driver.reports ≡ line_of control (Refused 8 Busy) 0 0 ∷ [] }
    ensures requests { requests_of (after 6).world.driver (asks_at asking 6) 0 ≡ asked read_two ∷ [] }
    ensures script { requests asking (report_after 6) control ≡ asked read_two ∷ [] }
{}

/// A closing line tells how often the device acted: of one that acted once, and at the end of that run of one that didn't.
pub fn a_closing_line()
    ensures line { device_closing Ctl kinds.Control control acted_once ≡ Acted control 1 ∷ [] }
    ensures premises { CountsActs (fixed_of asking) (after 6).world described (window read_two [] ∷ []) }
    ensures none { acted (report_after 6) control ≡ Some 0 }
{}
