ghost use Rattle.script_types.specs.declared.scripts.Script.{Script};
ghost use Rattle.script_fits.specs.Fits.{IsFit};
ghost use Rattle.claims_world.specs.Lent.{KeepsToLentThroughout};

/// At each moment of each script the controller's next event reads and writes words of Lent blocks alone, and what the driver's next event gives back
/// is Free afterwards.
pub fn each_moment_keeps_to_lent_blocks()
    ensures { (s : Script) → IsFit s → KeepsToLentThroughout s }
{}
