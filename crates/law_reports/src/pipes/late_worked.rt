//! Worked rows of interrupt IN endpoints below hubs whose hosts have waited since a frame began, which the check computes: a full-speed
//! keyboard behind a hub, whose frame 128 has its queue head (EHCI 1.0, 4.12.2.4.1).
ghost use Rattle.std.specs.Prelude.{◌≡◌, ℕ, List, [], ◌∷◌, Some};
ghost use Rattle.script_text.specs.Faults.{Spells};
ghost use Rattle.hc_interrupt.specs.declared.turns.Turn.TheVariants.{Miss, Work};
ghost use Rattle.hc_interrupt.specs.Turns.{turn_of};
ghost use Rattle.bus_wire.specs.Bus.{fixed_of, opening_wired};
ghost use Rattle.bus_world.specs.Budgets.{moment};
ghost use Rattle.claims_report.specs.Streams.{IsRightStream};
ghost use Rattle.claims_world.specs.BelowStreams.{IsSparedBefore};
ghost use Rattle.claims_world.specs.Streams.{report_of};
ghost use Rattle.law_world.specs.memory.Samples.{keyboard, disk, keyboard_and_disk};
ghost use Rattle.law_microframes.specs.due.repeats.Samples.{waiting, pressed};
ghost use Rattle.law_reports.specs.due_at_begin.SplitSamples.{starting, started_in, its_queue, its_head};
ghost use Rattle.law_reports.specs.pipes.Declared.{Sides};
ghost use Rattle.law_reports.specs.pipes.below_hubs.Inward.{IsSpared};
ghost use Rattle.law_reports.specs.pipes.below_hubs.InwardLaws.{BeginsFrame, IsInletOf, WaitsAt, inlet_of};
ghost use Rattle.law_reports.specs.pipes.below_hubs.Late.{IsHeldAt};
ghost use Rattle.law_reports.specs.pipes.below_hubs.LateSamples.{late, elsewhere, visited_in, Waits, Misses, cleared};
ghost use Rattle.law_reports.specs.pipes.below_hubs.Samples.{sheet, scanner, asks_hub};

/// Where the keyboard's host waits for complete-splits as a frame begins, it is late; not where a later microframe begins, before its
/// start-split, nor once it has its result.
pub fn a_host_waits_too_long()
    ensures frame { BeginsFrame late }
    ensures later { BeginsFrame waiting → ⊥ }
    ensures waits { Waits (its_head late) }
    ensures unstarted { Waits (its_head starting) → ⊥ }
    ensures heard { Waits (its_head (started_in pressed 4)) → ⊥ }
{}

/// In microframe 0 its queue head is visited and missed: then the frame passes it, and once that is written back its host waits no more.
/// Where it was visited, is in no hand and waits, the frame doesn't. In microframe 2 of its own frame it is worked on.
pub fn a_late_host_is_missed()
    ensures visited { visited_in late 2 ≡ its_queue ∷ [] }
    ensures held { IsHeldAt (started_in late 2) its_queue }
    ensures turn { turn_of 1024 (its_head late) ≡ Miss }
    ensures passes { (x : Sides) → Misses x late (started_in late 2) (visited_in late 2) }
    ensures over { Waits (its_head (started_in late 4)) → ⊥ }
    ensures kept { (x : Sides) → WaitsAt (fixed_of keyboard_and_disk) x (started_in late 1) its_queue
        → Misses x late (started_in late 1) (its_queue ∷ []) → ⊥ }
    ensures in_time { turn_of 1026 (its_head waiting) ≡ Work }
{}

/// In a later microframe it isn't linked in the frame; where it is, as in microframe 2 of its own frame, the frame doesn't pass it.
pub fn a_late_host_is_left_behind()
    ensures passes { (x : Sides) → Misses x elsewhere (started_in elsewhere 1) [] }
    ensures linked { (x : Sides) → Misses x waiting (started_in waiting 1) [] → ⊥ }
{}

/// The keyboard is an interrupt IN endpoint with a stream below a hub, which the script opens, and the disk isn't below one; nor is the
/// scanner opened by a script that opens its hub's endpoint 0 alone. No line opens that of the keyboard's hub: so it is spared, and
/// the keyboard's stream is right at each moment. A hub that has heard to clear a buffer isn't spared.
pub fn a_keyboard_keeps_its_stream()
    ensures inlet { IsInletOf keyboard_and_disk keyboard }
    ensures high { IsInletOf keyboard_and_disk disk → ⊥ }
    ensures unopened { IsInletOf asks_hub (sheet (Some 9) 4) → ⊥ }
    ensures spared { (text : List ℕ) → Spells text keyboard_and_disk → (k : ℕ) → IsSparedBefore keyboard_and_disk keyboard k }
    ensures stream { (text : List ℕ) → Spells text keyboard_and_disk → (k : ℕ)
        → IsRightStream keyboard_and_disk (report_of (fixed_of keyboard_and_disk) (moment keyboard_and_disk k).world) keyboard.name }
    ensures silent { IsSpared (inlet_of scanner (sheet (Some 9) 4)) (opening_wired scanner) }
    ensures clears { IsSpared (inlet_of scanner (sheet (Some 9) 4)) cleared → ⊥ }
{}
