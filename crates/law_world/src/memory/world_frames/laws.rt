ghost use Rattle.std.specs.Prelude.{ℕ, List};
ghost use Rattle.script_types.specs.declared.scripts.Script.{Script};
ghost use Rattle.script_text.specs.Faults.{Spells};
ghost use Rattle.script_fits.specs.Fits.{IsFit};
ghost use Rattle.claims_world.specs.Schedule.{KeepsScheduleThroughout};

/// At each moment of each script each frame of the list has the queue heads that are due in it, each once and no others; of its isochronous descriptors
/// those that wait are of different endpoints that are due in it; and all that is placed fits.
pub fn each_moment_keeps_the_schedule()
    ensures script { (s : Script) → IsFit s → KeepsScheduleThroughout s }
    ensures text { (text : List ℕ) (s : Script) → Spells text s → KeepsScheduleThroughout s }
{}
