//! The plan of a driver is what its endpoints have (USB 2.0, 5.11.3; EHCI 1.0, 4.6 and 4.7): at each moment it has the placement of each
//! periodic endpoint that wasn't given back, in the order of opening, and nothing else. An endpoint that is leaving its frames still has its
//! placement there.
//!
//! The module has no code of its own: each function is a law over the definitions of `drv_table`, and its body is empty. A world whose
//! driver `HasOwners` and `IsPlanned` keeps the second by `commands_keep_the_plan` and `events_keep_the_plan`.

pub mod worked;

ghost use Rattle.std.specs.Prelude.{◌≡◌, ℕ, false, slice_get, Some, Ok};
ghost use Rattle.usb_base.specs.declared.commands.Cmd.{Cmd};
ghost use Rattle.word_mem.specs.Memory.{Mem};
ghost use Rattle.bandwidth.specs.declared.placements.Placement.{Placement};
ghost use Rattle.bandwidth.specs.declared.placements.Placed.{Placed};
ghost use Rattle.drv_table.specs.declared.content.Endpoint.{Endpoint};
ghost use Rattle.drv_table.specs.declared.content.Reserve.{Reserve};
ghost use Rattle.drv_table.specs.DriverContent.{DriverContent};
ghost use Rattle.drv_table.specs.Accepting.{Offered};
ghost use Rattle.drv_table.specs.Offers.{offered};
ghost use Rattle.drv_table.specs.Opening.{opening};
ghost use Rattle.drv_table.specs.Parts.{Parts};
ghost use Rattle.drv_table.specs.Rows.{driver_row, after_driver_row};
ghost use Rattle.claims_driver.specs.Leaving.{HasOwners};
ghost use Rattle.std.specs.List.{AllByRecursion};
ghost use Rattle.drv_chains.specs.declared.members.QueueHead.{QueueHead};
ghost use Rattle.law_driver.specs.listed_members.Members.{IsListed};
ghost use Rattle.law_driver.specs.listed_queues.Queues.{HasQueues};
ghost use Rattle.drv_members.specs.Members.{IsKept};
ghost use Rattle.claims_driver.specs.DueMembers.{AreDue, HasAllDue, IsPlacedQueue, IsPlannedAt};
ghost use Rattle.law_driver.specs.planned_endpoints.Planned.{IsPlanned, IsEndpointOf};

/// A driver that was just built has no endpoints, and nothing placed.
#[tactic(auto, using(crate::proofs::lemmas::planned_endpoints::Laws::opening_plan_is_of_its_endpoints))]
pub fn opening_plan_is_of_its_endpoints()
    ensures { (n : ℕ) (room : Reserve) → IsPlanned (opening n room).driver }
{}

/// Each accepted command keeps that: the open of a periodic endpoint adds it and its placement.
#[tactic(auto, using(crate::proofs::lemmas::planned_endpoints::Laws::commands_keep_the_plan))]
pub fn commands_keep_the_plan()
    ensures { (d : DriverContent) (m : Mem) (cmd : Cmd) (o : Offered) → IsPlanned d → offered d m cmd ≡ Ok o → IsPlanned o.driver }
{}

/// Each event of the driver does: what gives back a periodic endpoint takes its placement out.
#[tactic(auto, using(crate::proofs::lemmas::planned_endpoints::Laws::events_keep_the_plan))]
pub fn events_keep_the_plan()
    ensures { (p : Parts) → HasOwners p.driver → IsPlanned p.driver → IsPlanned (after_driver_row (driver_row p) p).driver }
{}

/// So the placement of a periodic endpoint that wasn't given back, also of one that is leaving, counts in the plan.
#[tactic(auto, using(crate::proofs::lemmas::planned_endpoints::Laws::endpoints_count_until_given_back))]
pub fn endpoints_count_until_given_back()
    ensures { (d : DriverContent) (e : ℕ) (x : Endpoint) (p : Placement) → IsPlanned d → slice_get d.endpoints e ≡ Some x → x.gone ≡ false → x.placement ≡ Some p → IsPlannedAt d e x p }
{}

/// And what counts in the plan is an endpoint's that wasn't given back.
#[tactic(auto, using(crate::proofs::lemmas::planned_endpoints::Laws::what_counts_is_an_endpoint))]
pub fn what_counts_is_an_endpoint()
    ensures { (d : DriverContent) (i : ℕ) (y : Placed) → IsPlanned d → slice_get d.periodic.plan.placed i ≡ Some y → IsEndpointOf d y }
{}

/// Each queue head of the frame list is that of an endpoint whose placement counts in the plan, and stands in the frames of that placement.
#[tactic(auto, using(crate::proofs::lemmas::planned_endpoints::Queues::queue_heads_are_of_placed_endpoints))]
pub fn queue_heads_are_of_placed_endpoints()
    ensures { (d : DriverContent) → HasOwners d → IsListed d → IsPlanned d → AllByRecursion (IsPlacedQueue d) d.periodic.list.members.schedule.queues }
{}

/// Two queue heads of one endpoint are the same, so no endpoint has two in a frame's chain.
#[tactic(auto, using(crate::proofs::lemmas::planned_endpoints::Queues::an_endpoint_has_one_queue_head))]
pub fn an_endpoint_has_one_queue_head()
    ensures { (d : DriverContent) (q r : QueueHead) (h : IsPlacedQueue d q) (k : IsPlacedQueue d r) → h.number ≡ k.number → q ≡ r }
{}

/// So the chain of each frame has queue heads of placed endpoints alone that are active in it, and none twice.
pub fn queue_heads_of_a_frame_are_due()
    ensures { (d : DriverContent) (f : ℕ) → HasOwners d → IsListed d → IsPlanned d → IsKept d.periodic.list.members.schedule → AreDue d f }
{}

/// And it has each that is due: of each interrupt endpoint in its frames, in the frames in which its placement is active.
pub fn a_frame_has_all_queue_heads_that_are_due()
    ensures { (d : DriverContent) (f : ℕ) → HasOwners d → HasQueues d → IsKept d.periodic.list.members.schedule → HasAllDue d f }
{}
