//! The law of requests, for one transaction, for one window, and for all windows of a run.
ghost use Rattle.std.specs.Prelude.{◌≡◌, ℕ, ◌+◌, ◌≤◌, ◌∷◌, min, Bool, List, length, map, filter};
ghost use Rattle.std.specs.List.{concat, AllByRecursion};
ghost use Rattle.usb_base.specs.declared.endpoints.EndCause.{EndCause};
ghost use Rattle.usb_base.specs.declared.reports.What.TheVariants as Tells;
ghost use Rattle.dev_control.specs.Stages.{Stages};
ghost use Rattle.claims_report.specs.Acts.{IsOnce};
ghost use Rattle.law_device.specs.Acts.{counted};
ghost use Rattle.bus_wire.specs.declared.asked.Losses.{Losses as Lost};
ghost use Rattle.claims_report.specs.Requests.{Request, Window, IsTold, has_acted, data_of as told_data};
ghost use Rattle.law_request.specs.Host.{Endpoint, Done};
ghost use Rattle.law_request.specs.Line.{Line, line_at, transacted, answer_of, answered, acked};
ghost use Rattle.law_request.specs.Windows.{Turn, IsRequest, AreRequests, IsRight, AreRight, data_of, windows, left_after, counted_in, told_window, told_windows};
ghost use Rattle.law_request.specs.Scripted.{scripted};
ghost use Rattle.usb_base.specs.declared.packets.Ask.{Ask as Asked};
ghost use Rattle.usb_base.specs.declared.endpoints.EpName.{EpName as Name};
ghost use Rattle.script_types.specs.declared.scripts.Script.{Script as Text};
ghost use Rattle.endpoint_script.specs.Controlling.{Controlling, controlling_reply, controlling_answered, controlling_acked};
ghost use Rattle.endpoint_script.specs.Items.{requests_of};
ghost use Rattle.claims_report.specs.Streams.{items_of};
ghost use Rattle.law_request.specs.Standing.{Stands};

/// Before the first transaction of a request host and device stand to each other as they must, whatever the device was left as.
pub fn window_opens()
    ensures { (e : Endpoint) (r : Request) (ping : Bool) (c : Stages) → c.max ≡ e.max → Stands e r (line_at e r ping c) }
{}

/// Each transaction keeps how they stand, whatever is lost.
pub fn transaction_keeps()
    ensures { (e : Endpoint) (r : Request) (losses : Lost) (l : Line) → IsRequest r → Stands e r l → Stands e r (transacted e r losses l) }
{}

/// Where they stand so, the window is right.
pub fn window_is_right()
    ensures { (e : Endpoint) (r : Request) (l : Line) → Stands e r l → IsRight e r l }
{}

/// Whatever is lost, each window of a run of requests is right.
pub fn windows_are_right()
    ensures { (e : Endpoint) (ts : List Turn) (c : Stages) → AreRequests ts → c.max ≡ e.max → AreRight e ts c }
{}

/// The device's count rises by one for each act of the windows, up to the last value of 32 bits.
pub fn acts_are_counted()
    ensures transaction { (e : Endpoint) (r : Request) (losses : Lost) (l : Line) (n : ℕ) → l.device.acted ≡ counted l.acts n
        → (transacted e r losses l).device.acted ≡ counted (transacted e r losses l).acts n }
    ensures windows { (e : Endpoint) (ts : List Turn) (c : Stages) → (left_after e ts c).acted ≡ counted_in (windows e ts c) c.acted }
{}

/// What windows have come to is what a right report tells of their requests: one that is done, one that halted for whatever cause, or all
/// that aren't reported yet where the endpoint is cancelled. The device acts at most once in each, and its count is that of the windows in
/// which it acted, up to the last value of 32 bits.
pub fn windows_are_told()
    ensures done { (e : Endpoint) (r : Request) (l : Line) (ws : List Window) → IsRight e r l → l.host.stage ≡ Done → IsTold (data_of e) Tells.Done l.host.moved (told_window r l ∷ ws) }
    ensures halted { (e : Endpoint) (r : Request) (l : Line) (cause : EndCause) (ws : List Window) → IsRight e r l → IsTold (data_of e) (Tells.Halt cause) l.host.moved (told_window r l ∷ ws) }
    ensures cancelled { (e : Endpoint) (ts : List Turn) (c : Stages) → AreRight e ts c
        → IsTold (data_of e) Tells.Cancel (concat (map (λ l. l.host.moved) (windows e ts c))) (told_windows e ts c) }
    ensures acts { (e : Endpoint) (ts : List Turn) (c : Stages) → AreRight e ts c → AllByRecursion (λ w. IsOnce w.request.setup w.acts) (told_windows e ts c) }
    ensures count { (e : Endpoint) (ts : List Turn) (c : Stages) → AreRight e ts c → c.acted ≤ 4294967295
        → (left_after e ts c).acted ≡ min (c.acted + length (filter has_acted (told_windows e ts c))) 4294967295 }
{}

/// A scripted control endpoint is the device of such a line: it answers, and is left, by the replies of its script; and the data of a
/// request are those that a right report tells.
pub fn scripted_device()
    ensures answer { (addr num max : ℕ) (c : Controlling) (ask : Asked) (out : List ℕ) → controlling_reply c ask out ≡ answer_of (scripted addr num max c.requests) ask out c.stages }
    ensures left { (addr num max : ℕ) (c : Controlling) (ask : Asked) (out : List ℕ) →
        controlling_answered c ask out ≡ record c { stages = answered (scripted addr num max c.requests) ask out c.stages } }
    ensures acknowledged { (addr num max : ℕ) (c : Controlling) → controlling_acked c ≡ record c { stages = acked (scripted addr num max c.requests) c.stages } }
    ensures sent { (addr num max : ℕ) (s : Text) (name : Name) (r : Request) → data_of (scripted addr num max (requests_of (items_of s name))) r ≡ told_data s name r }
{}
