//! What a step of the queues of a world leaves to be told, and a worked step, which the check computes.
ghost use Rattle.std.specs.Prelude.{◌≡◌, [], ◌∷◌};
ghost use Rattle.drv_table.specs.declared.rows.DriverRow.TheVariants as rows;
ghost use Rattle.drv_table.specs.declared.rows.Found.TheVariants as founds;
ghost use Rattle.law_driver.specs.chained_transfers.Out.{out_now};
ghost use Rattle.law_driver.specs.queued_drivers.Queued.{queued};
ghost use Rattle.bus_world.specs.World.{driver_next};
ghost use Rattle.law_world.specs.memory.Mixed.{Standing};
ghost use Rattle.law_world.specs.memory.Steps.{IsToldRow, AreStill, QueueStep};
ghost use Rattle.law_world.specs.memory.StepLaws.{StaysTellsTheSame};
ghost use Rattle.law_world.specs.memory.StepSamples.{key_world, key_found, with_nothing};

/// Where no queue has a step, all that is told of each queue is told as before, by what either walk has in hand: the bytes that were
/// moved, the toggle and the endpoint.
pub fn stays_tells_the_same()
    ensures { StaysTellsTheSame }
{}

/// The get of an interrupt endpoint was done: its harvest is the driver's next event, and so do its queues tell it, as of a bulk endpoint.
/// Its qTD was out before and isn't after it, and that of the bulk endpoint still is; so that is the step.
pub fn harvest_takes_a_get()
    ensures row { IsToldRow key_world (driver_next key_world) (rows.Harvest 1 3 key_found) }
    ensures before { out_now (queued key_world.driver) 1 ≡ 4736 ∷ [] }
    ensures after { out_now (queued (driver_next key_world).driver) 1 ≡ [] }
    ensures beside { out_now (queued (driver_next key_world).driver) 0 ≡ 4224 ∷ [] }
    ensures step { (s : Standing) → QueueStep s key_world (driver_next key_world) (with_nothing s) }
{}

/// Where the qTD was out, the queues don't stay by it; and no harvest of the bulk endpoint is the row.
pub fn harvest_takes_no_other()
    ensures stays { (s : Standing) → s.out 4352 ≡ 4736 ∷ [] → AreStill s (with_nothing s) → ⊥ }
    ensures other { IsToldRow key_world (driver_next key_world) (rows.Harvest 0 0 founds.Active) → ⊥ }
{}
