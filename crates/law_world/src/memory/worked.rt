//! Worked rows, which the check computes.
ghost use Rattle.std.specs.Prelude.{◌≡◌, ℕ, suc, [], ◌∷◌, Some, None};
ghost use Rattle.word_mem.specs.Memory.{word_at};
ghost use Rattle.link_words.specs.declared.kinds.Link.TheVariants as links;
ghost use Rattle.periodic_walk.specs.Walk.{held_address};
ghost use Rattle.drv_table.specs.declared.content.Command.TheVariants as unfinished;
ghost use Rattle.drv_table.specs.declared.rows.DriverRow.TheVariants as rows;
ghost use Rattle.bus_world.specs.Budgets.{moment};
ghost use Rattle.claims_world.specs.Memory.{KeepsMemory, ring_blocks};
ghost use Rattle.bus_world.specs.World.{controller_parts};
ghost use Rattle.claims_world.specs.Reach.{Reaches, IsLentAt, TheList, QueueAt, QtdAt};
ghost use Rattle.law_world.specs.memory.InPlace.{HasAllInPlace, BreaksInPlace};
ghost use Rattle.law_world.specs.memory.Samples.{unlent, IsMixedScript, PlansFirst, keyboard_and_disk, typed_at, typed_row};

/// A script that opens an interrupt endpoint behind a hub and a bulk one beside it, and asks the first for eight bytes, meets the premises: it fits, says bytes, and what it
/// opens has numbers that fit their fields, and ways that fit their kinds.
pub fn a_script_with_a_keyboard_and_a_disk()
    ensures { IsMixedScript keyboard_and_disk }
{}

/// So its memory is kept at each moment.
pub fn it_keeps_its_memory()
    ensures { KeepsMemory keyboard_and_disk }
{}

/// So all that its driver has is in place at each moment. A driver whose book has no run hasn't its frame list in place.
pub fn its_structures_are_in_place()
    ensures holds { (k : ℕ) → HasAllInPlace (moment keyboard_and_disk k).world }
    ensures breaks { BreaksInPlace }
{}

/// The keyboard's endpoint is given the first of its placements.
pub fn its_place()
    ensures { PlansFirst }
{}

/// So its open is accepted, and what follows is the run of what is left.
pub fn its_moments()
    ensures { (k : ℕ) → (moment keyboard_and_disk (suc k)).world ≡ typed_at k }
{}

/// The open is accepted; block 130 with its queue head is lent, and then linked in eight frames, by one store for each: element 0 of the frame list leads nowhere before the
/// first store, and to the queue head after it; element 512 is the next, and element 896 has it once all are done.
pub fn a_queue_head_is_linked_in_its_frames()
    ensures accepted { (typed_at 0).driver.command ≡ Some unfinished.Chain }
    ensures to_lend { typed_row 0 ≡ rows.Lend }
    ensures to_link { typed_row 1 ≡ rows.Store 0 0 4162 }
    ensures nowhere { word_at (typed_at 1).memory 0 ≡ 1 }
    ensures element { word_at (typed_at 2).memory 0 ≡ 4162 }
    ensures next_element { typed_row 2 ≡ rows.Store 0 2048 4162 }
    ensures linked { (typed_at 9).driver.command ≡ None }
    ensures last_element { word_at (typed_at 9).memory 3584 ≡ 4162 }
{}

/// Then the disk's endpoint is opened: its queue head in block 133 stands behind the head of the ring from the store on that leads there.
pub fn a_queue_head_is_linked_in_the_ring()
    ensures accepted { (typed_at 11).driver.command ≡ Some (unfinished.Open 133) }
    ensures not_yet { ring_blocks (typed_at 11).driver ≡ [] }
    ensures to_link { typed_row 12 ≡ rows.Store 128 4096 4258 }
    ensures linked { ring_blocks (typed_at 13).driver ≡ 133 ∷ [] }
    ensures head { word_at (typed_at 13).memory 4096 ≡ 4258 }
    ensures back { word_at (typed_at 13).memory 4256 ≡ 4098 }
{}

/// Then the get is accepted: its qTD stands in block 132, the inactive one that the queue head led to, and is lent anew with the run that is its buffer; the last of the eight
/// stores is its token, of 8 bytes IN.
pub fn a_get_of_the_keyboard_is_published()
    ensures to_lend { typed_row 15 ≡ rows.Lend }
    ensures last { typed_row 23 ≡ rows.Store 132 4232 560512 }
    ensures published { (typed_at 24).driver.command ≡ None }
    ensures token { word_at (typed_at 24).memory 4232 ≡ 560512 }
    ensures ring { ring_blocks (typed_at 24).driver ≡ 133 ∷ [] }
    ensures element { word_at (typed_at 24).memory 0 ≡ 4162 }
{}

/// Then microframe 1 begins: its walk of frame 0 begins where element 0 leads, reads the queue head there, and, as its masks name other microframes, passes it and ends (4.4 and
/// 4.12.2).
pub fn the_controller_meets_the_keyboard()
    ensures microframe { (typed_at 26).registers.frame_index ≡ 1 }
    ensures leads { (typed_at 26).control.frame.cursor ≡ links.Qh 4160 }
    ensures held { held_address (typed_at 28).control.frame.hand ≡ Some 4160 }
    ensures let_go { held_address (typed_at 30).control.frame.hand ≡ None }
    ensures over { (typed_at 30).control.frame.cursor ≡ links.End }
{}

/// Once a get of the keyboard's is published its queue head is reached by the frame list, and by the queue head the qTD that it takes next; over a memory
/// of no block the frame list is reached, and isn't Lent.
#[tactic(auto, using(crate::proofs::lemmas::memory::ReachSamples::by_the_list, crate::proofs::lemmas::memory::ReachSamples::by_the_queue, crate::proofs::lemmas::memory::ReachSamples::over_no_block))]
pub fn the_keyboard_is_reached()
    ensures queue { Reaches (controller_parts (typed_at 24)) (QueueAt 4160) }
    ensures qtd { Reaches (controller_parts (typed_at 24)) (QtdAt 4224) }
    ensures unlent { Reaches (unlent (controller_parts (typed_at 24))) TheList × (IsLentAt (unlent (controller_parts (typed_at 24))) TheList → ⊥) }
{}
