//! A worked world: a hub with a full-speed device below it, which sends three bytes.
ghost use Rattle.std.specs.Prelude.{ℕ, []};
ghost use Rattle.bus_wire.specs.Bus.{fixed_of};
ghost use Rattle.bus_wire.specs.Samples.{script};
ghost use Rattle.law_scripts.specs.byte_answers.Bytes.{IsByteBus};
ghost use Rattle.bus_world.specs.Opening.{opening_world};
ghost use Rattle.bus_world.specs.Budgets.{moment};
ghost use Rattle.law_world.specs.steps.Streaming.{HearsBytesNow};

/// It hears bytes at each moment.
pub fn three_bytes()
    ensures opening { IsByteBus (opening_world (script [])).bus }
    ensures moment { (k : ℕ) → HearsBytesNow (fixed_of (script [])) (moment (script []) k).world }
{}
