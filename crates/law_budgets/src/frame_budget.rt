//! What the interrupt endpoints of a frame cost at high speed (USB 2.0, 5.11.3; EHCI 1.0, 4.6 and 4.10): visits to the queue heads of its
//! chain, one each, are visits to different placed endpoints, so they cost together no more than the load of their microframe.
//!
//! The module has no code of its own: each function is a law over the definitions of `drv_table` and of `periodic_walk`, and its body is
//! empty. `planned_endpoints` says which queue heads a frame's chain has, `visit_prices` what a visit costs.

ghost use Rattle.std.specs.Prelude.{ℕ, ◌<◌, ◌≤◌, List};
ghost use Rattle.std.specs.List.{AllByRecursion};
ghost use Rattle.bandwidth.specs.Sums.{Fits, load};
ghost use Rattle.drv_table.specs.DriverContent.{DriverContent};
ghost use Rattle.claims_driver.specs.DueMembers.{AreDue};
ghost use Rattle.law_budgets.specs.visit_prices.Spent.{Visit, IsVisit, AreOfPlaced, spent};
ghost use Rattle.law_budgets.specs.frame_budget.Visited.{VisitsDue};

/// Visits to the queue heads of a frame's chain are of different endpoints that count in the plan.
#[tactic(auto, using(crate::proofs::lemmas::frame_budget::Visited::of_placed))]
pub fn visits_of_a_frame_are_of_placed_endpoints()
    ensures { (d : DriverContent) (f : ℕ) (vs : List Visit) → AreDue d f → VisitsDue d f vs → AreOfPlaced d.periodic.plan.placed vs }
{}

/// So in one microframe they cost at most what the plan has for it.
#[tactic(auto, using(crate::proofs::lemmas::frame_budget::Visited::visits_of_a_frame_cost_at_most_the_load))]
pub fn visits_of_a_frame_cost_at_most_the_load()
    ensures { (d : DriverContent) (f u : ℕ) (vs : List Visit) → AreDue d f → VisitsDue d f vs → AllByRecursion (IsVisit u) vs → spent vs ≤ load d.periodic.plan.placed u }
{}

/// That is 100 microseconds at most, where the plan fits.
#[tactic(auto, using(crate::proofs::lemmas::frame_budget::Visited::visits_of_a_frame_leave_a_fifth))]
pub fn visits_of_a_frame_leave_a_fifth()
    ensures { (d : DriverContent) (f u : ℕ) (vs : List Visit) → AreDue d f → VisitsDue d f vs → AllByRecursion (IsVisit u) vs → Fits d.periodic.plan.placed → u < 8192 → spent vs ≤ 100000000 }
{}
