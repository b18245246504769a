//! The control requests of a world (EHCI 1.0, 4.6, 4.8 and 4.10; USB 2.0, 8.5.3): each event of the controller is at most one transaction of one of the
//! requests, or the advance of one queue head to its next request, and leaves all windows as they must stand, so that at any moment a request whose
//! status memory shows to have ended was acted on exactly once by its scripted device. The same windows are recorded from the trace of a run alone.
//!
//! The module has no code of its own: each function is a law over the definitions of `bus_world` and of the crates of the ring, and its body is empty.

pub mod worked;

ghost use Rattle.std.specs.Prelude.{◌≡◌, ℕ, suc, ◌<◌, Bool, true, List, [], ◌++◌, Option, Some, None};
ghost use Rattle.law_structures.specs.lent_structures.Structures.{StructureSets};
ghost use Rattle.bus_wire.specs.Bus.{Fixed};
ghost use Rattle.law_ring.specs.Hand.{Hand};
ghost use Rattle.claims_base.specs.Controller.{Base};
ghost use Rattle.law_devices.specs.ring_requests.Windows.{Queue, sent_at, Lines, lines_at, HasEnded, IsActedOnce, IsQueue, AreHigh, Step, stepped};
ghost use Rattle.law_devices.specs.ring_requests.Runs.{first_of};
ghost use Rattle.dev_control.specs.Stages.{Stages};
ghost use Rattle.claims_report.specs.Acts.{IsOnce};
ghost use Rattle.claims_report.specs.Requests.{Request};
ghost use Rattle.drv_table.specs.DriverContent.{DriverContent};
ghost use Rattle.claims_report.specs.ControlSides.{Device};
ghost use Rattle.bus_world.specs.World.{World, controller_next};
ghost use Rattle.law_reports.specs.requests.world_requests.Requesting.{IsRequesting, HearsBytesNow, StaysRequesting};
ghost use Rattle.claims_world.specs.Requests.{endpoint_of, Windows, recorded, windows_of};
ghost use Rattle.law_reports.specs.requests.world_requests.Recording.{AreFound, AreRecorded, RecorderFollows, AreInOrder, told_at};

/// Each event of the controller leaves the windows so: it makes at most one transaction of one request under way, or is the advance of one queue head
/// from a request that is done to the next one.
pub fn the_controller_leaves_the_windows()
    ensures { (fixed : Fixed) (base : Base) (member windows : ℕ → Bool) (sent : ℕ → Queue) (parts : StructureSets) (hand : Hand) (lines : ℕ → Lines) (w : World)
        → HearsBytesNow fixed w → IsRequesting fixed base member windows sent parts hand lines w → AreHigh windows parts
        → StaysRequesting fixed base member windows sent lines (controller_next fixed w) }
{}

/// Where memory shows that the status of a request ended, and that its qTD or its queue head isn't halted, its device acted on it exactly once.
pub fn an_ended_request_was_acted_on_once()
    ensures { (fixed : Fixed) (base : Base) (member windows : ℕ → Bool) (sent : ℕ → Queue) (parts : StructureSets) (hand : Hand) (lines : ℕ → Lines) (w : World) (n i : ℕ)
        → IsRequesting fixed base member windows sent parts hand lines w → windows n ≡ true → i < (sent n).count → HasEnded (sent_at (sent n) i) parts n
        → IsActedOnce (sent_at (sent n) i) ((lines n).line i) hand parts n }
{}

/// Where the windows of the requests are those that the trace tells, they are so after each event of the controller. Where each request that isn't done is
/// found by its places, so it is after an event.
pub fn the_trace_tells_the_windows()
    ensures windows { RecorderFollows }
    ensures found { (d : DriverContent) (windows : ℕ → Bool) (sent : ℕ → Queue) (lines : ℕ → Lines) (number : ℕ → ℕ → ℕ) (step : Option Step)
        → AreFound d windows sent lines number → AreFound d windows sent (stepped sent step lines) number }
{}

/// Before a request is begun nothing is recorded of it: of the first ones of an endpoint, and of one that is published behind the others.
pub fn nothing_is_recorded_before_it_is_begun()
    ensures first { (v : Queue) (number : ℕ → ℕ) (latest : Option ℕ) (acts : ℕ → List (List ℕ)) (ping : Bool) (c : Stages) → 0 < v.count → ((i : ℕ) → i < v.count → acts (number i) ≡ [])
        → AreRecorded v number latest acts (lines_at v ping c) }
    ensures next { (v more : Queue) (number : ℕ → ℕ) (latest : Option ℕ) (acts : ℕ → List (List ℕ)) (l : Lines) → AreRecorded v number latest acts l → more.count ≡ suc v.count
        → acts (number v.count) ≡ [] → AreRecorded more number latest acts l }
{}

/// The windows of an endpoint's transfers that the trace tells are those of its requests, and in each the device acted at most once, on nothing but the
/// setup bytes.
pub fn the_told_windows_are_right()
    ensures told { (d : DriverContent) (asks : ℕ → Request) (w : Windows) (e : ℕ) (v : Queue) (number : ℕ → ℕ) (latest : Option ℕ) (l : Lines) → AreInOrder d asks e v number
        → AreRecorded v number latest w.acts l → windows_of d asks w e ≡ first_of (told_at v l) v.count }
    ensures once { (v : Queue) (l : Lines) (number : ℕ → ℕ) (latest : Option ℕ) (acts : ℕ → List (List ℕ)) (hand : Hand) (parts : StructureSets) (n i : ℕ) (o : Option Device)
        → IsQueue v l hand parts n o → AreRecorded v number latest acts l → i < v.count → IsOnce (v.requests i).setup (acts (number i)) }
{}

/// An event that sends no SETUP of a request opens no window, and a transfer whose device doesn't act, or that the driver doesn't have, gets no act; an
/// event in which a device acts adds its acts to the open window of its endpoint.
pub fn other_events_record_nothing()
    ensures opened { (d : DriverContent) (acted : ℕ → List (List ℕ)) (v : Windows) (e : ℕ) → (recorded d None acted v).opened e ≡ v.opened e }
    ensures quiet { (d : DriverContent) (begun : Option ℕ) (acted : ℕ → List (List ℕ)) (v : Windows) (t : ℕ) → ((e : ℕ) → endpoint_of d t ≡ Some e → acted e ≡ [])
        → (recorded d begun acted v).acts t ≡ v.acts t }
    ensures acts { (d : DriverContent) (acted : ℕ → List (List ℕ)) (v : Windows) (t e : ℕ) → endpoint_of d t ≡ Some e → v.opened e ≡ Some t
        → (recorded d None acted v).acts t ≡ acted e ++ v.acts t }
{}
