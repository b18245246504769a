//! Scripts without clears: their runs are those of a driver without jobs. Laws of the definitions, and worked rows that the check computes.
ghost use Rattle.std.specs.Prelude.{◌≡◌, ℕ, [], ◌∷◌, ◌++◌, Some, None};
ghost use Rattle.usb_base.specs.declared.commands.Cmd.TheVariants.{Cancel, Clear};
ghost use Rattle.usb_base.specs.declared.endpoints.EpName.{EpName};
ghost use Rattle.usb_base.specs.declared.packets.Way.TheVariants.{Out};
ghost use Rattle.script_types.specs.declared.scripts.Event.TheVariants.{D};
ghost use Rattle.script_types.specs.declared.scripts.Line.TheVariants.{Order, Command as Commanded};
ghost use Rattle.script_types.specs.declared.scripts.Script.{Script};
ghost use Rattle.bus_wire.specs.Bus.{Fixed};
ghost use Rattle.drv_jobs.specs.declared.jobs.Job.TheVariants.{Resets, Mends};
ghost use Rattle.drv_jobs.specs.declared.jobs.JobRow.TheVariants.{Resets as ResetsRow};
ghost use Rattle.drv_jobs.specs.declared.jobs.OverlayWord.TheVariants.{Next};
ghost use Rattle.report_text.specs.ReportText.{taken_line};
ghost use Rattle.bus_wire.specs.Resets.{bus_reset};
ghost use Rattle.bus_world.specs.AtWork.{jobless, driver_next_by, taken_at};
ghost use Rattle.bus_world.specs.World.{World};
ghost use Rattle.bus_world.specs.Budgets.{moment};
ghost use Rattle.bus_world.specs.Closing.{world_text};
ghost use Rattle.bus_world.specs.ClosingAtWork.{epochs_of, taken_lines, text_at_work};
ghost use Rattle.bus_world.specs.Plain.{IsPlain, ArePlain};
ghost use Rattle.bus_world.specs.RunsAtWork.{moment_at_work, jobless_place};

/// At each moment of such a script there is no job, no endpoint was reset, and the world is that of the driver without jobs.
#[tactic(auto, using(crate::proofs::PlainRuns::steady_scripts_run_plain))]
pub fn steady_scripts_run_plain()
    ensures { (s : Script) → IsPlain s → (k : ℕ) → moment_at_work s k ≡ jobless_place (moment s k) }
{}

/// The report of a world without a job and without resets is that of the world alone.
#[tactic(auto, using(crate::proofs::PlainRuns::jobless_worlds_are_told_as_before))]
pub fn jobless_worlds_are_told_as_before()
    ensures { (fixed : Fixed) (w : World) → text_at_work fixed (jobless w) ≡ world_text fixed w }
{}

/// A script with a clear isn't plain; any other command is.
pub fn plain_lines()
    ensures plain { (name : EpName) → ArePlain ((2, Order D 5) ∷ (3, Commanded (Cancel name)) ∷ []) }
    ensures clears { (name : EpName) → ArePlain ((2, Order D 5) ∷ (3, Commanded (Clear name)) ∷ []) → ⊥ }
{}

/// The reset of an endpoint is that of its device, and marks what was taken there.
pub fn resets_marked()
    ensures { (w : World) (e : ℕ) (name : EpName)
        → driver_next_by (ResetsRow name) (record { world = w; job = Some (Resets e); marks = [] })
        ≡ record {
          world = record w { bus = bus_reset name w.bus };
          job = Some (Mends e Next);
          marks = record { name = name; taken = taken_at w.bus name } ∷ [];
        } }
{}

/// What was taken, epoch by epoch: three bytes before the first reset, none before the second, and one behind it.
#[tactic(auto, unfolding(crate::specs::ClosingAtWork::epochs_of))]
pub fn epochs()
    ensures one { epochs_of [] (1 ∷ 2 ∷ []) 0 ≡ (1 ∷ 2 ∷ []) ∷ [] }
    ensures three { epochs_of (3 ∷ 3 ∷ []) (1 ∷ 2 ∷ 3 ∷ 4 ∷ []) 0 ≡ (1 ∷ 2 ∷ 3 ∷ []) ∷ [] ∷ (4 ∷ []) ∷ [] }
    ensures other { taken_lines (record { name = record { addr = 3; num = 2; way = Out }; taken = 1 } ∷ [])
        (record { addr = 3; num = 1; way = Out }) (7 ∷ 8 ∷ [])
        ≡ taken_line (record { addr = 3; num = 1; way = Out }) (7 ∷ 8 ∷ []) }
    ensures own { taken_lines (record { name = record { addr = 3; num = 1; way = Out }; taken = 1 } ∷ [])
        (record { addr = 3; num = 1; way = Out }) (7 ∷ 8 ∷ [])
        ≡ taken_line (record { addr = 3; num = 1; way = Out }) (7 ∷ []) ++ taken_line (record { addr = 3; num = 1; way = Out }) (8 ∷ []) }
{}
