//! Budgets along runs whose driver may be at a job: a law of the definitions.
ghost use Rattle.script_types.specs.declared.scripts.Script.{Script};
ghost use Rattle.script_fits.specs.Fits.{IsFit};
ghost use Rattle.bus_world.specs.BudgetsAtWork.{AdmitsAtWork};

/// At each moment of the run of a script that a host carries out, clears and all, what is placed keeps the budgets; with no job the open
/// of a periodic endpoint is refused for want of a placement exactly where none fits.
#[tactic(auto, using(crate::proofs::BudgetedAtWork::scripts_admit_at_work))]
pub fn scripts_admit_at_work()
    ensures { (s : Script) → IsFit s → AdmitsAtWork s }
{}
