ghost use Rattle.std.specs.Prelude.{◌≡◌, true};
ghost use Rattle.drv_table.specs.Parts.{Parts};
ghost use Rattle.drv_table.specs.Rows.{driver_row, after_driver_row};
ghost use Rattle.law_driver.specs.in_place.InPlace.{IsSound};
ghost use Rattle.claims_driver.specs.FrameWords.{ListStands};
ghost use Rattle.law_frame_list.specs.list_aside.Elsewhere.{is_elsewhere};

/// An event that lends, stores for the ring or for a qTD, gives back, or stores nothing leaves the frame list standing.
pub fn events_elsewhere_keep_it_standing()
    ensures { (p : Parts) → is_elsewhere p.driver.command (driver_row p) ≡ true → IsSound p.memory p.driver → ListStands p.memory p.driver
        → ListStands (after_driver_row (driver_row p) p).memory (after_driver_row (driver_row p) p).driver }
{}
