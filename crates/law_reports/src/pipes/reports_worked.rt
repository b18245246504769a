//! Worked rows: beside a keyboard behind a hub, which is asked by split transactions, the streams of a device at high speed are claimed,
//! those of its interrupt endpoint too.
ghost use Rattle.std.specs.Prelude.{◌≡◌, true, false, [], ◌∷◌};
ghost use Rattle.law_driver.specs.AsynchronousScripts.{AsynchronousOnly};
ghost use Rattle.claims_world.specs.HighStreams.{claimed, KeepsHighThroughout, AreHighInStreams, AreHighTakenStreams};
ghost use Rattle.claims_world.specs.HighStreams.{AreHighSentStreams, AreHighStreams};
ghost use Rattle.law_opened.specs.Samples.{key, sink, board, beside_split};
ghost use Rattle.law_world.specs.memory.Samples.{IsMixedScript};
ghost use Rattle.law_reports.specs.pipes.high_streams.Names.{HasItsNames};
ghost use Rattle.law_reports.specs.pipes.high_streams.Samples.{told_of, took, cancelled};

/// The two endpoints of the device at high speed are claimed, and the keyboard isn't; no class of scripts has this one.
pub fn what_is_claimed_beside_a_keyboard()
    ensures interrupt { claimed beside_split key ≡ true }
    ensures bulk { claimed beside_split sink ≡ true }
    ensures split { claimed beside_split board ≡ false }
    ensures no_class { AsynchronousOnly beside_split → ⊥ }
{}

/// The script meets the premises of the laws: it fits, it says bytes, and it has its names.
pub fn the_premises_beside_a_keyboard()
    ensures script { IsMixedScript beside_split }
    ensures names { HasItsNames beside_split }
{}

/// So its streams at high speed are right at each moment.
pub fn kept_beside_a_keyboard()
    ensures { KeepsHighThroughout beside_split }
{}

/// A get of two bytes is done, a byte was put and taken, and the interrupt endpoint is cancelled then: all streams at high speed are right,
/// whatever is told of the keyboard. Before its open, when nothing is told and nothing closes the report, they have begun.
pub fn right_beside_a_keyboard()
    ensures ins { AreHighInStreams beside_split (told_of (1 ∷ 2 ∷ []) (4 ∷ 0 ∷ []) (took (7 ∷ [])) (cancelled ∷ [])) }
    ensures taken { AreHighTakenStreams beside_split (told_of (1 ∷ 2 ∷ []) (4 ∷ 0 ∷ []) (took (7 ∷ [])) (cancelled ∷ [])) }
    ensures sent { AreHighSentStreams beside_split (told_of (1 ∷ 2 ∷ []) (4 ∷ 0 ∷ []) (took (7 ∷ [])) (cancelled ∷ [])) }
    ensures all { AreHighStreams beside_split (told_of (1 ∷ 2 ∷ []) (4 ∷ 0 ∷ []) (took (7 ∷ [])) (cancelled ∷ [])) }
    ensures unclaimed { AreHighInStreams beside_split (told_of (1 ∷ 2 ∷ []) (8 ∷ 9 ∷ []) (took (7 ∷ [])) (cancelled ∷ [])) }
    ensures before { AreHighInStreams beside_split (record { lines = []; store = []; closings = [] }) }
    ensures untaken { AreHighTakenStreams beside_split (record { lines = []; store = []; closings = [] }) }
{}

/// They aren't right where another byte is told of the interrupt endpoint, or where its line comes once more after the cancel; nor where
/// the device of the bulk endpoint took nothing of what is told to be put, or another byte than the one that was.
pub fn wrong_beside_a_keyboard()
    ensures byte { AreHighInStreams beside_split (told_of (1 ∷ 3 ∷ []) (4 ∷ 0 ∷ []) (took (7 ∷ [])) (cancelled ∷ [])) → ⊥ }
    ensures followed { AreHighInStreams beside_split (told_of (1 ∷ 2 ∷ []) (4 ∷ 0 ∷ []) (took (7 ∷ [])) (cancelled ∷ cancelled ∷ [])) → ⊥ }
    ensures nothing { AreHighTakenStreams beside_split (told_of (1 ∷ 2 ∷ []) (4 ∷ 0 ∷ []) (took []) (cancelled ∷ [])) → ⊥ }
    ensures other { AreHighSentStreams beside_split (told_of (1 ∷ 2 ∷ []) (4 ∷ 0 ∷ []) (took (8 ∷ [])) (cancelled ∷ [])) → ⊥ }
{}
