//! A worked control request along its run, which the check computes (EHCI 1.0, 4.8 and 4.10; USB 2.0, 8.5.3).
ghost use Rattle.std.specs.Prelude.{◌≡◌, true, false, [], ◌∷◌, Some, slice_get};
ghost use Rattle.usb_base.specs.declared.reports.What.TheVariants.{Done, Cancel};
ghost use Rattle.drv_table.specs.declared.content.Endpoint.{Endpoint as Opened};
ghost use Rattle.bus_world.specs.Budgets.{moment};
ghost use Rattle.claims_report.specs.Reports.{acted};
ghost use Rattle.claims_report.specs.Requests.{data_of, AreTold};
ghost use Rattle.claims_world.specs.Requests.{report_at, windows_then, IsOfDevice};
ghost use Rattle.law_reports.specs.requests.CancelledTold.{before_cancel};
ghost use Rattle.law_devices.specs.declared_controls.Samples.{zero, reading};
ghost use Rattle.law_reports.specs.requests.AskedSamples.{asked_once, asked_windows, asked_lines, its_window, asked_hub};
ghost use Rattle.law_reports.specs.requests.AskedSamples.{asked_cancelled, cancelled_lines, asked_midway, midway_lines};

/// A request comes to its act: the device acts as it first answers the status, and not before.
pub fn a_request_is_acted_on()
    ensures begun { asked_windows 32 ≡ its_window [] ∷ [] }
    ensures acted { asked_windows 33 ≡ its_window (reading ∷ []) ∷ [] }
{}

/// Once all is carried out its endpoint is one of those of which the clause speaks, and isn't cancelled; one line tells that the request is
/// done, with the two bytes that the device has, and the closing line tells one act.
pub fn a_request_is_told()
    ensures over { (moment asked_once 39).orders ≡ [] }
    ensures device { (x : Opened) → slice_get (moment asked_once 39).world.driver.endpoints 0 ≡ Some x → IsOfDevice asked_once 39 0 x }
    ensures going { (x : Opened) → slice_get (moment asked_once 39).world.driver.endpoints 0 ≡ Some x → x.cancelled ≡ false }
    ensures window { asked_windows 39 ≡ its_window (reading ∷ []) ∷ [] }
    ensures line { asked_lines ≡ record { name = zero.name; what = Done; from = 0; len = 2 } ∷ [] }
    ensures bytes { (report_at asked_once 39).store ≡ 18 ∷ 1 ∷ [] }
    ensures counted { acted (report_at asked_once 39) zero.name ≡ Some 1 }
{}

/// The endpoint is cancelled behind that, and given back: its lines but the one of the cancel tell so still.
pub fn a_cancelled_endpoint_is_told()
    ensures over { (moment asked_cancelled 100).orders ≡ [] }
    ensures device { (x : Opened) → slice_get (moment asked_cancelled 100).world.driver.endpoints 0 ≡ Some x
        → IsOfDevice asked_cancelled 100 0 x }
    ensures cancelled { (x : Opened) → slice_get (moment asked_cancelled 100).world.driver.endpoints 0 ≡ Some x → x.cancelled ≡ true }
    ensures window { windows_then asked_cancelled 100 0 ≡ its_window (reading ∷ []) ∷ [] }
    ensures lines { cancelled_lines ≡ record { name = zero.name; what = Done; from = 0; len = 2 }
        ∷ record { name = zero.name; what = Cancel; from = 2; len = 0 } ∷ [] }
    ensures before { before_cancel cancelled_lines ≡ record { name = zero.name; what = Done; from = 0; len = 2 } ∷ [] }
{}

/// It is cancelled once its data came in, and no line tells it done, though the walk meets its queue head until the doorbell is answered
/// and the device acts: the line of the cancel tells the two bytes, which begin the data of the request. With another byte it would be
/// wrong.
pub fn a_request_is_cancelled_midway()
    ensures over { (moment asked_midway 100).orders ≡ [] }
    ensures window { windows_then asked_midway 100 0 ≡ its_window (reading ∷ []) ∷ [] }
    ensures line { midway_lines ≡ record { name = zero.name; what = Cancel; from = 0; len = 2 } ∷ [] }
    ensures bytes { (report_at asked_midway 100).store ≡ 18 ∷ 1 ∷ [] }
    ensures told { AreTold (data_of asked_midway zero.name) (18 ∷ 1 ∷ []) (its_window (reading ∷ []) ∷ [])
        (record { name = zero.name; what = Cancel; from = 0; len = 2 } ∷ []) }
    ensures wrong { AreTold (data_of asked_midway zero.name) (4 ∷ []) (its_window (reading ∷ []) ∷ [])
        (record { name = zero.name; what = Cancel; from = 0; len = 1 } ∷ []) → ⊥ }
{}

/// A line that tells it done before its act would be wrong; and of a hub's own endpoint the clause says nothing.
pub fn what_is_not_told()
    ensures early { AreTold (data_of asked_once zero.name) (18 ∷ 1 ∷ []) (asked_windows 32) asked_lines → ⊥ }
    ensures hub { (x : Opened) → IsOfDevice asked_hub 3 0 x → ⊥ }
{}
