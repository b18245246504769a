ghost use Rattle.mem_runs.specs.Book.{holding, Stands};
ghost use Rattle.drv_table.specs.Parts.{Parts};
ghost use Rattle.drv_table.specs.Rows.{driver_row, after_driver_row};
ghost use Rattle.claims_driver.specs.LentRuns.{AreLent};
ghost use Rattle.claims_driver.specs.Released.{IsReleased};

/// Where the driver's next event gives something back, each of its blocks is Free afterwards.
pub fn what_a_release_leaves_is_free()
    ensures { (p : Parts) → Stands (holding p.driver.book p.memory) → AreLent p.driver
        → IsReleased p.driver (after_driver_row (driver_row p) p).memory (driver_row p) }
{}
