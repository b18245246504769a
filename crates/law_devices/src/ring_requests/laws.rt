ghost use Rattle.std.specs.Prelude.{◌≡◌, ℕ, suc, ◌<◌, ◌≤◌, Bool, true, map, Option, Some};
ghost use Rattle.async_walk.specs.Rows.{WalkPlace, at_event, event_row, step_of, Leads};
ghost use Rattle.law_structures.specs.lent_structures.Structures.{StructureSets};
ghost use Rattle.law_ring.specs.Hand.{Hand};
ghost use Rattle.claims_base.specs.Controller.{Base};
ghost use Rattle.law_ring.specs.Ring.{IsRing};
ghost use Rattle.law_ring.specs.Effects.{AreBytesHeard};
ghost use Rattle.law_request.specs.Line.{line_at};
ghost use Rattle.law_request.specs.Windows.{windows, counted_in, IsRight};
ghost use Rattle.claims_report.specs.ControlSides.{Device};
ghost use Rattle.law_devices.specs.request_calls.Bus.{device_of, IsControlBus};
ghost use Rattle.law_devices.specs.ring_requests.Windows.{Sent, Queue, sent_at, Lines, lines_at, IsWindow, IsLaid, HasEnded, IsActedOnce, IsQueue, AreLaid, AreSent, AreWindows, AreHigh, Step, stepped, stage_of, HaltedStay, WindowsGoOn, Progress, progressed};
ghost use Rattle.law_devices.specs.ring_requests.Runs.{first_of, IsRun, turns_of};
ghost use Rattle.usb_base.specs.declared.endpoints.EndCause.{EndCause};
ghost use Rattle.law_request.specs.Host.{Halted};
ghost use Rattle.dev_control.specs.Stages.{Stages};
ghost use Rattle.qh_qtd.specs.declared.queue_head.Qh.{Qh};

use usb_base::Wire;

/// Each event of the walk makes at most one transaction of one request under way, or is the advance of one queue head from a request that is done to
/// the next one, whose window it opens; all windows stand as they must afterwards. Where the request under way of an endpoint halted, no event is a
/// step of that endpoint: the requests behind it are never begun. The queue heads are of high speed.
pub fn each_event_keeps_the_windows<W: Wire>()
    ensures { (device : W → ℕ → ℕ → Option Device) (base : Base) (member windows : ℕ → Bool) (sent : ℕ → Queue) (lines : ℕ → Lines) (parts : StructureSets) (hand : Hand)
        (p : WalkPlace) (wire : W) (new : WalkPlace) (after : W) → AreSent member windows sent → IsControlBus W.transacts device → IsRing base member parts hand p
        → AreWindows device member windows sent lines parts hand wire → AreHigh windows parts → AreBytesHeard W.transacts wire after → Leads W.transacts (event_row p) (at_event p) wire new after
        → WindowsGoOn W.transacts device base member windows sent lines parts hand wire after new (step_of (event_row p) (at_event p)) }
{}

/// Where the request under way of an endpoint halted, each event leaves the endpoint as it is: the requests behind that one are never begun.
pub fn requests_behind_a_halted_one_are_not_begun()
    ensures { (windows : ℕ → Bool) (sent : ℕ → Queue) (lines : ℕ → Lines) (step : Option Step) (n : ℕ) (cause : EndCause) → HaltedStay windows lines step
        → windows n ≡ true → stage_of (lines n) ≡ Halted cause → stepped sent step lines n ≡ lines n }
{}

/// The device acted at most once, and on nothing but the setup bytes; where the request is done it acted exactly once, and all its data moved; until
/// then, and where it halts, the bytes that are told of its data qTD begin its data.
pub fn each_window_is_right<W: Wire>()
    ensures { (device : W → ℕ → ℕ → Option Device) (member windows : ℕ → Bool) (sent : ℕ → Queue) (lines : ℕ → Lines) (parts : StructureSets) (hand : Hand) (wire : W) (n i : ℕ)
        → AreWindows device member windows sent lines parts hand wire → windows n ≡ true → i ≤ (lines n).under → IsRight (sent n).endpoint ((sent n).requests i) ((lines n).line i) }
{}

/// On each request before the one under way the device acted exactly once, and all its data are told.
pub fn each_request_before_was_acted_on_once<W: Wire>()
    ensures { (device : W → ℕ → ℕ → Option Device) (member windows : ℕ → Bool) (sent : ℕ → Queue) (lines : ℕ → Lines) (parts : StructureSets) (hand : Hand) (wire : W) (n i : ℕ)
        → AreWindows device member windows sent lines parts hand wire → windows n ≡ true → i < (lines n).under → IsActedOnce (sent_at (sent n) i) ((lines n).line i) hand parts n }
{}

/// A request that is laid out opens its window, whatever the device was left as.
pub fn a_request_opens_its_window()
    ensures { (v : Sent) (hand : Hand) (parts : StructureSets) (n : ℕ) (q : Qh) (c : Stages) (o : Option Device) → IsLaid v hand parts n q → c.max ≡ v.endpoint.max
        → o ≡ Some (device_of v.endpoint c) → IsWindow v (line_at v.endpoint v.request q.token.ping c) hand parts n o }
{}

/// Requests that are laid out one behind the other open the window of the first of them, whatever the device was left as.
pub fn requests_open_their_windows()
    ensures { (v : Queue) (hand : Hand) (parts : StructureSets) (n : ℕ) (q : Qh) (c : Stages) (o : Option Device) → AreLaid v hand parts n q → c.max ≡ v.endpoint.max
        → o ≡ Some (device_of v.endpoint c) → IsQueue v (lines_at v q.token.ping c) hand parts n o }
{}

/// Where memory shows that the status of a request ended, and that its qTD or its queue head isn't halted, the device acted on it exactly once, and the bytes that
/// are told of its data qTD are the device's reply cut at wLength, or the bytes that were submitted.
pub fn an_ended_request_was_acted_on_once<W: Wire>()
    ensures { (device : W → ℕ → ℕ → Option Device) (base : Base) (member windows : ℕ → Bool) (sent : ℕ → Queue) (lines : ℕ → Lines) (parts : StructureSets) (hand : Hand)
        (p : WalkPlace) (wire : W) (n i : ℕ) → AreSent member windows sent → IsRing base member parts hand p → AreWindows device member windows sent lines parts hand wire
        → windows n ≡ true → i < (sent n).count → HasEnded (sent_at (sent n) i) parts n → IsActedOnce (sent_at (sent n) i) ((lines n).line i) hand parts n }
{}

/// The windows of an endpoint's requests are those of a run: each step is one more transaction of the last request, or the next request on the device
/// as it was left. So the device's count rises by one for each act of these windows, up to the last value of 32 bits.
pub fn windows_are_those_of_a_run()
    ensures begins { (v : Queue) (ping : Bool) (c : Stages) → IsRun v c (lines_at v ping c) }
    ensures goes_on { (v : Queue) (c : Stages) (l : Lines) (p : Progress) → IsRun v c l → IsRun v c (progressed v p l) }
    ensures windows { (v : Queue) (c : Stages) (l : Lines) (k : IsRun v c l) → windows v.endpoint (turns_of k) c ≡ first_of l.line (suc l.under) }
    ensures requests { (v : Queue) (c : Stages) (l : Lines) (k : IsRun v c l) → map (λ t. t.request) (turns_of k) ≡ first_of v.requests (suc l.under) }
    ensures count { (v : Queue) (c : Stages) (l : Lines) → IsRun v c l → (l.line l.under).device.acted ≡ counted_in (first_of l.line (suc l.under)) c.acted }
{}
