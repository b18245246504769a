//! The rows.
ghost use Rattle.std.specs.Prelude.{◌≡◌, ℕ, suc, ◌+◌, ◌==◌, true, false, [], ◌∷◌, Some};
ghost use Rattle.word_mem.specs.Memory.{word_at};
ghost use Rattle.hc_interrupt.specs.declared.turns.Turn.TheVariants.{Work};
ghost use Rattle.law_world.specs.memory.Samples.{keyboard, keyboard_and_disk, keyboard_place, typed_at};
ghost use Rattle.law_world.specs.memory.MicrophoneSamples.{one_microphone};
ghost use Rattle.hc_core.specs.declared.controller.ControllerRow.TheVariants as rows;
ghost use Rattle.hc_core.specs.declared.controller.MicroframePart.TheVariants.{Over};
ghost use Rattle.bus_wire.specs.Bus.{fixed_of};
ghost use Rattle.bus_world.specs.World.{controller_row, controller_parts};
ghost use Rattle.hc_core.specs.Controller.{frame_place};
ghost use Rattle.law_budgets.specs.visit_prices.Prices.{after};
ghost use Rattle.claims_world.specs.FrameHeads.{characteristics_in, capabilities_in};
ghost use Rattle.claims_world.specs.InTime.{is_late};
ghost use Rattle.law_microframes.specs.visits.Began.{began, IsAhead};
ghost use Rattle.law_microframes.specs.visits.OneDescriptor.{IsActiveDescriptor};
ghost use Rattle.law_microframes.specs.visits.Ranks.{name_of};
ghost use Rattle.law_microframes.specs.visits.Visited.{link_ahead};
ghost use Rattle.claims_world.specs.Visits.{IsInChain, HasVisited, IsPastFrames, WasOfFrame, IsUnlinkedNow, is_held_now};
ghost use Rattle.drv_periodic_table.specs.declared.content.Removed.TheVariants as removed;
ghost use Rattle.law_microframes.specs.visits.VisitSamples.{typed_visits};
ghost use Rattle.claims_world.specs.WithinLoad.{payments, paid_by_all};
ghost use Rattle.claims_world.specs.Scripts.{HighPeriodicsOnly};
ghost use Rattle.usb_base.specs.declared.packets.EpKind.TheVariants.{Interrupt, Bulk};
ghost use Rattle.usb_base.specs.declared.packets.Pid.TheVariants.{Data2};
ghost use Rattle.usb_base.specs.declared.packets.Reply.TheVariants.{Bytes};
ghost use Rattle.bandwidth.specs.Sums.{load};
ghost use Rattle.law_microframes.specs.time.ChargeSamples.{iso_in, itd_at};
ghost use Rattle.law_microframes.specs.worked_visits.Samples.{typed_payments, typed_began, typed_place, typed_qtd, kinds_of, owners_of, firsts_of, due_at, due_payments, paid_at, sensor_and_disk, waiting_at, waiting_visits, turn_in, without_keyboard};

/// Where a microframe begins nothing was paid; the queue head of the keyboard's endpoint is fetched, which costs nothing, and passed, since it is inactive.
pub fn a_keyboard_is_passed()
    ensures begins { typed_payments 26 ≡ [] }
    ensures reads { typed_payments 28 ≡ (4160, 0) ∷ [] }
    ensures passes { typed_payments 30 ≡ (4160, 0) ∷ [] }
{}

/// Where the descriptor of an isochronous endpoint with up to three packets of 1,024 bytes a microframe is in hand, 20.6 microseconds are paid for a packet in the microframe of its
/// placement, in which its load is 61.7 microseconds; and nothing in the next.
pub fn a_descriptor_is_paid()
    ensures own { paid_at 2 ≡ (0x1000, 20551712) ∷ [] }
    ensures its_load { load (iso_in ∷ []) 2 ≡ 61655136 }
    ensures other { paid_at 3 ≡ (0x1000, 0) ∷ [] }
    ensures no_load { load (iso_in ∷ []) 3 ≡ 0 }
{}

/// A script that opens a high-speed interrupt endpoint and a bulk one is one of those whose payments are within the load; so is one that opens a high-speed isochronous endpoint.
pub fn a_script_of_high_speed_periodics()
    ensures interrupt { HighPeriodicsOnly sensor_and_disk }
    ensures isochronous { HighPeriodicsOnly one_microphone }
{}

/// What is paid and what is begun after the open of the keyboard's endpoint, which is accepted, are those of the run of what is left.
pub fn its_payments_and_begins()
    ensures paid { (k : ℕ) → payments keyboard_and_disk (suc k) ≡ typed_payments k }
    ensures begun { (k : ℕ) → began keyboard_and_disk (suc k) ≡ typed_began k }
{}

/// In the periodic part of a microframe in which the bus may be used, with the keyboard's queue head in hand, what is left and what was paid are the whole time, and no transaction is
/// skipped for want of it.
pub fn a_keyboard_is_in_time()
    ensures walks { controller_row (typed_at 28) ≡ rows.Frame }
    ensures allowed { is_held_now (fixed_of keyboard_and_disk) (typed_at 28) ≡ false }
    ensures rest { (typed_at 28).control.frame.left + paid_by_all (typed_payments 28) ≡ 125000000 }
    ensures in_time { is_late (typed_place 28) ≡ false }
{}

/// So it is where a packet of 1,024 bytes was paid: 104.4 of the 125 microseconds are left.
pub fn a_descriptor_is_in_time()
    ensures before { is_late (itd_at 2) ≡ false }
    ensures left { (after (itd_at 2) (Bytes Data2 [])).walk.left ≡ 104448288 }
    ensures rest { (after (itd_at 2) (Bytes Data2 [])).walk.left + paid_by_all (paid_at 2) ≡ 125000000 }
    ensures in_time { is_late (after (itd_at 2) (Bytes Data2 [])) ≡ false }
{}

/// Where nothing is taken of the time, what is left and what was paid are more than the whole.
pub fn nothing_is_free()
    ensures untaken { (itd_at 2).walk.left + paid_by_all (paid_at 2) ≡ 145551712 }
{}

/// Where the frame of a high-speed microphone's descriptor begins, which the script with one asked for, the walk goes on to the descriptor; it is fetched, its transaction isn't late, and
/// once that is paid what is left and what was paid are the whole time.
pub fn a_microphone_is_in_time()
    ensures ahead { name_of (link_ahead (due_at 1).control.frame.hand (due_at 1).control.frame.cursor) ≡ Some 4160 }
    ensures fetched { due_payments 2 ≡ (4160, 0) ∷ [] }
    ensures walks { controller_row (due_at 2) ≡ rows.Frame }
    ensures allowed { is_held_now (fixed_of one_microphone) (due_at 2) ≡ false }
    ensures in_time { is_late (frame_place (controller_parts (due_at 2))) ≡ false }
    ensures paid { due_payments 3 ≡ (4160, 798623) ∷ [] }
    ensures left { (due_at 3).control.frame.left ≡ 124201377 }
    ensures rest { (due_at 3).control.frame.left + paid_by_all (due_payments 3) ≡ 125000000 }
{}

/// Where microframe 1 begins the keyboard's queue head is linked in frame 0, and not in frame 1; the walk of the frames isn't over then,
/// and has visited nothing. Once it is over the queue head was visited.
pub fn a_keyboard_is_not_left_out()
    ensures linked { IsInChain (typed_at 25) 0 4160 }
    ensures elsewhere { IsInChain (typed_at 25) 1 4160 → ⊥ }
    ensures goes_on { IsPastFrames (typed_at 26) → ⊥ }
    ensures none { HasVisited 4160 (typed_visits 26) → ⊥ }
    ensures still { IsInChain (typed_at 30) 0 4160 }
    ensures over { IsPastFrames (typed_at 30) }
    ensures visited { HasVisited 4160 (typed_visits 30) }
{}

/// In microframe 2 of frame 128 the keyboard's queue head waits for a complete-split. It is linked where the microframe begins; the walk
/// hasn't visited it then, and isn't over. Then it is visited, and is linked still, and there is a complete-split to
/// make.
pub fn a_keyboard_is_visited_at_its_complete_split()
    ensures linked { IsInChain (waiting_at 0) 128 4160 }
    ensures goes_on { IsPastFrames (waiting_at 1) → ⊥ }
    ensures none { HasVisited 4160 (waiting_visits 1) → ⊥ }
    ensures still { IsInChain (waiting_at 2) 128 4160 }
    ensures visited { HasVisited 4160 (waiting_visits 2) }
    ensures turn { turn_in (waiting_at 2).control.frame.hand 1026 ≡ Some Work }
{}

/// Where the keyboard's endpoint was unlinked, its queue head was of frame 128, not of frame 129, and nothing else was. In microframe 2 of
/// frame 128 it was unlinked in this microframe, where no later frame was read since.
pub fn a_keyboard_was_of_its_frame()
    ensures own { WasOfFrame without_keyboard 128 4160 (removed.Endpoint 0) }
    ensures another_frame { WasOfFrame without_keyboard 129 4160 (removed.Endpoint 0) → ⊥ }
    ensures another_place { WasOfFrame without_keyboard 128 4192 (removed.Endpoint 0) → ⊥ }
    ensures now { IsUnlinkedNow without_keyboard 1026 (removed.Endpoint 0) }
{}

/// That descriptor, of endpoint 0 and for frame 2, is active, and the walk goes on to it.
pub fn the_walk_goes_on_to_a_microphone()
    ensures ahead { IsAhead (due_at 1) 4160 }
    ensures active { IsActiveDescriptor (due_at 1).driver (due_at 1).memory 0 2 4160 }
{}

/// Before the first Begin the world is that before the first line, which has no transfers; from each Begin on it is the world in which that Begin was, with the frame index before it, until
/// the next.
pub fn a_microframe_has_its_begin()
    ensures before { firsts_of (typed_began 25).driver ≡ [] }
    ensures first { firsts_of (typed_began 26).driver ≡ 132 ∷ [] }
    ensures index { (typed_began 28).registers.frame_index ≡ 0 }
    ensures goes_on { (typed_at 28).registers.frame_index ≡ 1 }
    ensures over { (typed_began 40).registers.frame_index ≡ 0 }
    ensures second { (typed_began 42).registers.frame_index ≡ 1 }
    ensures second_part { (typed_began 42).control.part ≡ Over }
    ensures second_goes_on { (typed_at 42).registers.frame_index ≡ 2 }
{}

/// Its queue head stands in block 130, with the words of its description and of its placement; at a placement without a start-split the
/// word of the masks would be another.
pub fn a_keyboard_has_its_words()
    ensures characteristics { word_at (typed_at 25).memory 4164 ≡ characteristics_in keyboard }
    ensures capabilities { word_at (typed_at 25).memory 4168 ≡ capabilities_in keyboard keyboard_place }
    ensures without { (capabilities_in keyboard keyboard_place == capabilities_in keyboard (record keyboard_place { smask = 0 })) ≡ false }
{}

/// The one transfer is that of the keyboard's interrupt endpoint; its qTD is in memory in block 132, active, and of an IN, whose PID code is 1.
pub fn a_get_is_an_in()
    ensures kinds { kinds_of (typed_at 25).driver ≡ Interrupt ∷ Bulk ∷ [] }
    ensures transfer { owners_of (typed_at 25).driver ≡ 0 ∷ [] }
    ensures block { firsts_of (typed_at 25).driver ≡ 132 ∷ [] }
    ensures active { (typed_qtd 25 132).token.active ≡ true }
    ensures pid { (typed_qtd 25 132).token.pid ≡ 1 }
{}
