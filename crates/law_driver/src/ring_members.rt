//! The ring of queue heads as its words tell it (EHCI 1.0, 4.8): the head leads to the newest endpoint in the ring, each endpoint to the
//! one before, and the oldest to the head; one that has left leads to the head, to one in the ring, or to one that left later.
//!
//! The module has no code of its own: each function is a law over the definitions of `drv_table`, and its body is empty. A world whose
//! driver `HasOwners` and whose words are its `IsRing` keeps both by `commands_keep_the_ring` and `events_keep_the_ring`; `run_owners`
//! stands below it.

pub mod worked;

ghost use Rattle.std.specs.Prelude.{◌≡◌, ◌≢◌, ℕ, ◌≤◌, Ok, None, false, slice_get, Some};
ghost use Rattle.usb_base.specs.declared.commands.Cmd.{Cmd};
ghost use Rattle.word_mem.specs.Memory.{Mem};
ghost use Rattle.drv_table.specs.declared.content.Endpoint.{Endpoint};
ghost use Rattle.drv_table.specs.declared.content.Reserve.{Reserve};
ghost use Rattle.drv_table.specs.DriverContent.{DriverContent};
ghost use Rattle.drv_table.specs.Accepting.{Offered};
ghost use Rattle.drv_table.specs.Offers.{offered};
ghost use Rattle.drv_table.specs.Opening.{opening};
ghost use Rattle.drv_table.specs.Parts.{Parts};
ghost use Rattle.drv_table.specs.Rows.{driver_row, after_driver_row};
ghost use Rattle.drv_table.specs.Words.{head_block};
ghost use Rattle.claims_driver.specs.Leaving.{HasOwners};
ghost use Rattle.claims_driver.specs.Ring.{link_in, members, IsChain};
ghost use Rattle.law_driver.specs.ring_members.Words.{IsRing};
ghost use Rattle.law_driver.specs.in_place.InPlace.{IsSound};
ghost use Rattle.law_driver.specs.ring_members.Ring.{HasQueue, KeepsRing};

/// When the driver was built the head leads to itself.
#[tactic(auto, using(crate::proofs::lemmas::ring_members::Opened::opening_is_a_ring))]
pub fn opening_is_a_ring()
    ensures { (n : ℕ) (room : Reserve) → 2048 ≤ n → IsRing (link_in (opening n room).memory) (opening n room).driver }
{}

/// A command that is accepted leaves the ring as it is; a new queue head leads to the newest in it.
#[tactic(auto, using(crate::proofs::lemmas::ring_members::Laws::commands_keep_the_ring))]
pub fn commands_keep_the_ring()
    ensures { (d : DriverContent) (m : Mem) (cmd : Cmd) (o : Offered) → offered d m cmd ≡ Ok o → KeepsRing d m o }
{}

/// Each event of the driver keeps the ring: an endpoint joins by the store to the head's link, and leaves by the store that passes it over.
/// The stores of the frame list go to the list and its members, which begin runs of their own (`IsListed`).
#[tactic(auto, using(crate::proofs::lemmas::ring_members::Events::events_keep_the_ring))]
pub fn events_keep_the_ring()
    ensures { (p : Parts) → IsSound p.memory p.driver → IsRing (link_in (after_driver_row (driver_row p) p).memory) (after_driver_row (driver_row p) p).driver }
{}

/// Where no command is unfinished, the words lead from the head through each queue head in the ring, the newest first, and back to the
/// head.
#[tactic(auto, using(crate::proofs::lemmas::ring_members::Laws::the_ring_is_read))]
pub fn the_ring_is_read()
    ensures { (word : ℕ → ℕ) (d : DriverContent) → d.command ≡ None → IsRing word d → IsChain word head_block (members d.endpoints) }
{}

/// Queue heads that weren't given back stand in blocks of their own, so each is met once. Isochronous endpoints have none.
pub fn each_is_met_once()
    ensures { (d : DriverContent) (e f : ℕ) (x y : Endpoint) → HasOwners d → HasQueue d e x → HasQueue d f y → e ≢ f → x.queue ≢ y.queue }
{}
