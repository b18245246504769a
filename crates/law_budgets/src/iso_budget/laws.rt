//! The laws.
ghost use Rattle.std.specs.Prelude.{ℕ, ◌≤◌, ◌<◌, ◌++◌, List};
ghost use Rattle.std.specs.List.{AllByRecursion};
ghost use Rattle.bandwidth.specs.Sums.{Fits, load};
ghost use Rattle.drv_chains.specs.declared.members.Descriptor.{Descriptor};
ghost use Rattle.drv_chains.specs.Chains.{descriptors_in};
ghost use Rattle.drv_members.specs.Members.{IsKept};
ghost use Rattle.drv_table.specs.DriverContent.{DriverContent};
ghost use Rattle.claims_driver.specs.DueMembers.{AreDue, HasOneEach};
ghost use Rattle.law_budgets.specs.visit_prices.Spent.{Visit, IsVisit, AreOfPlaced, spent};
ghost use Rattle.law_budgets.specs.iso_budget.Visited.{AreDifferent, AreVisits};

/// No descriptor stands in a frame twice.
pub fn descriptors_of_a_frame_are_different()
    ensures { (d : DriverContent) (f : ℕ) → IsKept d.periodic.list.members.schedule → AreDifferent (descriptors_in d.periodic.list.members.schedule f) }
{}

/// Visits to queue heads and descriptors of a frame are of different endpoints that count in the plan.
pub fn visits_of_a_frame_are_of_placed_endpoints()
    ensures { (d : DriverContent) (f : ℕ) (vs : List Visit) (ks : List Descriptor) (ws : List Visit) → AreDue d f → HasOneEach d → AreVisits d f vs ks ws
        → AreOfPlaced d.periodic.plan.placed (vs ++ ws) }
{}

/// So in one microframe they cost together at most what the plan has for it, which is 100 microseconds at most where the plan fits.
pub fn visits_of_a_frame_cost_at_most_the_load()
    ensures load { (d : DriverContent) (f u : ℕ) (vs : List Visit) (ks : List Descriptor) (ws : List Visit) → AreDue d f → HasOneEach d → AreVisits d f vs ks ws
        → AllByRecursion (IsVisit u) (vs ++ ws) → spent (vs ++ ws) ≤ load d.periodic.plan.placed u }
    ensures fifth { (d : DriverContent) (f u : ℕ) (vs : List Visit) (ks : List Descriptor) (ws : List Visit) → AreDue d f → HasOneEach d → AreVisits d f vs ks ws
        → AllByRecursion (IsVisit u) (vs ++ ws) → Fits d.periodic.plan.placed → u < 8192 → spent (vs ++ ws) ≤ 100000000 }
{}
