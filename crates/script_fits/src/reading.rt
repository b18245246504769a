ghost use Rattle.std.specs.Prelude.{IfOk, IfErr};
ghost use Rattle.script_text.specs.Faults.{Spells, IsRight};
ghost use Rattle.script_fits.specs.Fits.{IsFit};

use script_text::{TextError, parse};
use script_types::Script;
use std::alloc::Global;

#[tactic(auto, using(crate::proofs::Texts::spelled_fits))]
/// The script that a text spells, which a host can carry out, or its first fault: the number of the first faulty line and the first
/// cause that the line has. All memory that reading needs is taken here.
pub fn read(alloc: Global, text: &[u8]) -> Result<Script, TextError>
    ensures spelled { IfOk result (λ s. Spells text.now s) }
    ensures fits { IfOk result (λ s. IsFit s) }
    ensures refused { IfErr result (λ e. IsRight text.now e) }
{
    parse(alloc, text)
}
