//! The laws.
ghost use Rattle.std.specs.Prelude.{ℕ, Option};
ghost use Rattle.claims_report.specs.ControlSides.{Device};
ghost use Rattle.law_reports.specs.requests.QueueEvents.{EventKeepsCourses, EventLeavesDevice};
ghost use Rattle.law_reports.specs.requests.Spared.{CoursesAreSpared, StoreSparesCourses, LendSparesCourses, ReleaseSparesCourses, LinkSparesCourses};
ghost use Rattle.law_reports.specs.requests.Coming.{LentIsComing, StoreKeepsComing, EventKeepsComing, ComingIsPublished};
ghost use Rattle.law_reports.specs.requests.QueueChanges.{FirstEnds, FirstGoes, LastGoes, RequestHalts, AskedStore, RestStore, HaltedStore, MendStands, MendGoesOn, CourseBegins, CourseLeaves, MembersChange};

use usb_base::Wire;

/// Each event of the controller leaves all queues as they must stand: it makes at most one transaction of one request under way, or is the advance of one queue
/// head from a request that is done to the next one, and asks nothing of a queue at rest. The device of an endpoint that no queue head has stays as it is.
pub fn an_event_keeps_the_queues<W: Wire>()
    ensures queues { (device : W → ℕ → ℕ → Option Device) → EventKeepsCourses W.begins W.transacts device }
    ensures device { (device : W → ℕ → ℕ → Option Device) → EventLeavesDevice W.begins W.transacts device }
{}

/// What is written beside the requests leaves all queues as they stand: a store over a qTD that is no request's, that isn't active where it ends the queue, a
/// lend, structures that are given back, and a link that is stored in a queue head.
pub fn queues_are_spared<W: Wire>()
    ensures all { (device : W → ℕ → ℕ → Option Device) → CoursesAreSpared device }
    ensures store { (device : W → ℕ → ℕ → Option Device) → StoreSparesCourses device }
    ensures lend { (device : W → ℕ → ℕ → Option Device) → LendSparesCourses device }
    ensures release { (device : W → ℕ → ℕ → Option Device) → ReleaseSparesCourses device }
    ensures link { (device : W → ℕ → ℕ → Option Device) → LinkSparesCourses device }
{}

/// Where the first of several requests has ended it was acted on exactly once, and the others go on, one of them under way.
pub fn first_ends()
    ensures { FirstEnds }
{}

/// A request that has ended was acted on exactly once, and goes from its queue: the others go on, or the queue is at rest. Where the queue head was halted none
/// of its requests is asked any more.
pub fn a_request_ends<W: Wire>()
    ensures first { (device : W → ℕ → ℕ → Option Device) → FirstGoes device }
    ensures last { (device : W → ℕ → ℕ → Option Device) → LastGoes device }
    ensures halts { (device : W → ℕ → ℕ → Option Device) → RequestHalts device }
{}

/// The store by which a request is published puts it behind those that are asked, opens its window where the queue is at rest, or has it wait until the halted
/// queue head is mended.
pub fn a_request_is_published<W: Wire>()
    ensures asked { (device : W → ℕ → ℕ → Option Device) → AskedStore device }
    ensures first { (device : W → ℕ → ℕ → Option Device) → RestStore device }
    ensures waits { (device : W → ℕ → ℕ → Option Device) → HaltedStore device }
{}

/// Once the qTDs of a request are lent, and while its SETUP is being stored over the qTD at the end of its queue, its data and its status stay fresh, whatever
/// the controller does; by the last store it is published there.
pub fn a_request_is_coming<W: Wire>()
    ensures lent { LentIsComing }
    ensures store { StoreKeepsComing }
    ensures event { (device : W → ℕ → ℕ → Option Device) → EventKeepsComing W.begins W.transacts device }
    ensures published { ComingIsPublished }
{}

/// A store over a halted queue head leaves its queue at rest while it stays halted; once it goes on the first of the requests that wait opens its window.
pub fn a_halted_queue_is_mended<W: Wire>()
    ensures stands { (device : W → ℕ → ℕ → Option Device) → MendStands device }
    ensures goes_on { (device : W → ℕ → ℕ → Option Device) → MendGoesOn device }
{}

/// An endpoint that is met from now on is at rest, and one of which nothing more is told leaves all others as they stand; so do queue heads without requests
/// that come or go.
pub fn endpoints_come_and_go<W: Wire>()
    ensures begins { (device : W → ℕ → ℕ → Option Device) → CourseBegins device }
    ensures leaves { (device : W → ℕ → ℕ → Option Device) → CourseLeaves device }
    ensures members { (device : W → ℕ → ℕ → Option Device) → MembersChange device }
{}
