//! What the periodic transactions of a microframe cost at high speed (USB 2.0, 5.11.3; EHCI 1.0, 4.7, 4.10.3 and 4.12): a visit to a placed
//! endpoint costs no more than its placement, whatever the bus replies, and visits to different placed endpoints cost together no more
//! than the load of their microframe.
//!
//! The module has no code of its own: each function is a law over the definitions of `bandwidth` and of `periodic_walk`, and its body is
//! empty. That a frame's chain has each placed endpoint once is a premise here.

pub mod worked;

ghost use Rattle.std.specs.Prelude.{◌≡◌, ℕ, ◌+◌, ◌<◌, ◌≤◌, false, List};
ghost use Rattle.std.specs.List.{AllByRecursion};
ghost use Rattle.usb_base.specs.declared.packets.Reply.{Reply};
ghost use Rattle.bandwidth.specs.declared.placements.Placed.{Placed};
ghost use Rattle.bandwidth.specs.Sums.{Fits, load};
ghost use Rattle.hc_iso.specs.declared.held.HeldItd.{HeldItd};
ghost use Rattle.periodic_walk.specs.declared.state.HeldQueue.{HeldQueue};
ghost use Rattle.periodic_walk.specs.Place.{FramePlace};
ghost use Rattle.usb_base.specs.declared.endpoints.EpDesc.{EpDesc};
ghost use Rattle.usb_base.specs.declared.packets.EpKind.TheVariants.{Interrupt, Iso};
ghost use Rattle.usb_base.specs.declared.packets.Speed.TheVariants.{High};
ghost use Rattle.bandwidth.specs.declared.placements.Placement.{Placement};
ghost use Rattle.drv_periodic_table.specs.Descriptors.{new_itd};
ghost use Rattle.drv_table.specs.Words.{interrupt_head};
ghost use Rattle.law_budgets.specs.visit_prices.Spent.{IsHeadOf, IsItdOf, placed_as};
ghost use Rattle.law_budgets.specs.visit_prices.Spent.{MeetsHead, MeetsDescriptor, ComesAfter, visit_from, Visit, IsVisit, AreOfPlaced, total, spent};
ghost use Rattle.law_budgets.specs.visit_prices.Prices.{after, prices};
ghost use Rattle.qh_qtd.specs.declared.queue_head.Qh.{Qh as Head};
ghost use Rattle.itd_sitd.specs.declared.itd.Itd.{Itd as Descriptor};
ghost use Rattle.law_budgets.specs.visit_prices.Fetched.{queue_copy, itd_copy, FetchesHead, FetchesDescriptor};
ghost use Rattle.law_budgets.specs.visit_prices.Time.{late_in, ending};

/// A visit to the queue head of a placed high-speed interrupt endpoint, from its fetch on, in a frame of the placement.
pub fn queue_visits_cost_their_placement()
    ensures { (x : Placed) (p : FramePlace) (h : HeldQueue) (rs : List Reply) → MeetsHead x p h → IsVisit p.walk.index (visit_from x p rs) }
{}

/// A visit to the descriptor of a placed high-speed isochronous endpoint, from its fetch on, in a frame of the placement.
pub fn descriptor_visits_cost_their_placement()
    ensures { (x : Placed) (p : FramePlace) (h : HeldItd) (rs : List Reply) → MeetsDescriptor x p h → IsVisit p.walk.index (visit_from x p rs) }
{}

/// Visits of one microframe to different placed endpoints cost together at most its load.
#[tactic(auto, using(crate::proofs::lemmas::visit_prices::Joined::visits_cost_at_most_the_load))]
pub fn visits_cost_at_most_the_load()
    ensures { (placed : List Placed) (u : ℕ) (vs : List Visit) → AreOfPlaced placed vs → AllByRecursion (IsVisit u) vs → spent vs ≤ load placed u }
{}

/// Where what is placed fits they leave a fifth of the microframe, 25,000,000 picoseconds.
#[tactic(auto, using(crate::proofs::lemmas::visit_prices::Joined::visits_leave_a_fifth))]
pub fn visits_leave_a_fifth()
    ensures { (placed : List Placed) (u : ℕ) (vs : List Visit) → Fits placed → u < 8192 → AreOfPlaced placed vs → AllByRecursion (IsVisit u) vs → spent vs ≤ 100000000 }
{}

/// Such a visit takes of the time left what its transactions cost, and nothing else.
#[tactic(auto, using(crate::proofs::lemmas::visit_prices::Joined::queue_visits_take_their_prices))]
pub fn queue_visits_take_their_prices()
    ensures { (x : Placed) (p : FramePlace) (h : HeldQueue) (rs : List Reply) → MeetsHead x p h → total (prices p rs) + (ending p rs).walk.left ≡ p.walk.left }
{}

/// The same of a descriptor.
#[tactic(auto, using(crate::proofs::lemmas::visit_prices::Joined::descriptor_visits_take_their_prices))]
pub fn descriptor_visits_take_their_prices()
    ensures { (x : Placed) (p : FramePlace) (h : HeldItd) (rs : List Reply) → MeetsDescriptor x p h → total (prices p rs) + (ending p rs).walk.left ≡ p.walk.left }
{}

/// Where the plan fits, no transaction of a visit to an interrupt endpoint is skipped for want of time, whatever was visited before it in
/// the microframe.
pub fn queue_visits_are_in_time()
    ensures { (placed : List Placed) (vs : List Visit) (x : Placed) (p : FramePlace) (h : HeldQueue) (rs : List Reply) → ComesAfter placed vs x p rs → MeetsHead x p h → late_in p rs ≡ false }
{}

/// The same of a descriptor.
pub fn descriptor_visits_are_in_time()
    ensures { (placed : List Placed) (vs : List Visit) (x : Placed) (p : FramePlace) (h : HeldItd) (rs : List Reply) → ComesAfter placed vs x p rs → MeetsDescriptor x p h → late_in p rs ≡ false }
{}

/// The queue head that the driver writes for a high-speed interrupt endpoint at its placement is that of the placed endpoint.
#[tactic(auto, using(crate::proofs::lemmas::visit_prices::Written::written_heads_are_of_their_placement))]
pub fn written_heads_are_of_their_placement()
    ensures { (e link dummy : ℕ) (x : EpDesc) (p : Placement) → x.speed ≡ High → x.kind ≡ Interrupt → 1 ≤ x.multi → IsHeadOf (placed_as e x p) (interrupt_head x p.smask p.cmask link dummy) }
{}

/// The descriptor that it writes for a high-speed isochronous endpoint is, too.
#[tactic(auto, using(crate::proofs::lemmas::visit_prices::Written::written_descriptors_are_of_their_placement))]
pub fn written_descriptors_are_of_their_placement()
    ensures { (e slot : ℕ) (runs : List ℕ) (x : EpDesc) (p : Placement) → x.speed ≡ High → x.kind ≡ Iso → IsItdOf (placed_as e x p) (new_itd x p.smask slot runs) }
{}

/// A fetch of its queue head begins such a visit.
pub fn fetches_of_queue_heads_begin_visits()
    ensures { (x : Placed) (p : FramePlace) (a : ℕ) (q : Head) (r : Reply) → FetchesHead x p a q → MeetsHead x (after p r) (queue_copy a q) }
{}

/// So does one of its descriptor.
pub fn fetches_of_descriptors_begin_visits()
    ensures { (x : Placed) (p : FramePlace) (a : ℕ) (v : Descriptor) (r : Reply) → FetchesDescriptor x p a v → MeetsDescriptor x (after p r) (itd_copy p a v) }
{}
