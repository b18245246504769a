ghost use Rattle.std.specs.Prelude.{◌≡◌, ℕ};
ghost use Rattle.drv_table.specs.declared.content.Command.TheVariants as unfinished;
ghost use Rattle.drv_table.specs.declared.rows.DriverRow.TheVariants as rows;
ghost use Rattle.drv_table.specs.Parts.{Parts};
ghost use Rattle.drv_table.specs.Rows.{driver_row, after_driver_row};
ghost use Rattle.law_driver.specs.in_place.InPlace.{IsSound};
ghost use Rattle.claims_driver.specs.DueMembers.{HasOneEach};
ghost use Rattle.claims_driver.specs.FrameWords.{ListStands};
ghost use Rattle.law_frame_list.specs.list_driver.Keeping.{AreLeading, AreToLink};
ghost use Rattle.law_frame_list.specs.list_steps.Steps.{IsLinkingStep};

/// Descriptors are lent with their links, and the first begins to be linked: the list stands, and each of the others leads on.
pub fn lent_descriptors_keep_it_standing()
    ensures list { (p : Parts) → driver_row p ≡ rows.LendDescriptors → IsSound p.memory p.driver → HasOneEach p.driver → AreToLink p.driver
        → ListStands p.memory p.driver
        → ListStands (after_driver_row (driver_row p) p).memory (after_driver_row (driver_row p) p).driver }
    ensures queued { (p : Parts) → driver_row p ≡ rows.LendDescriptors → IsSound p.memory p.driver → HasOneEach p.driver → AreToLink p.driver
        → AreLeading (after_driver_row (driver_row p) p).memory (after_driver_row (driver_row p) p).driver }
{}

/// So it is after each store that links one of them.
pub fn linked_descriptors_keep_it_standing()
    ensures list { (p : Parts) → (e first count : ℕ) → IsLinkingStep p (unfinished.Iso e first count) → IsSound p.memory p.driver
        → HasOneEach p.driver → AreLeading p.memory p.driver → ListStands p.memory p.driver
        → ListStands (after_driver_row (driver_row p) p).memory (after_driver_row (driver_row p) p).driver }
    ensures queued { (p : Parts) → (e first count : ℕ) → IsLinkingStep p (unfinished.Iso e first count) → IsSound p.memory p.driver
        → HasOneEach p.driver → AreLeading p.memory p.driver → ListStands p.memory p.driver
        → AreLeading (after_driver_row (driver_row p) p).memory (after_driver_row (driver_row p) p).driver }
{}
