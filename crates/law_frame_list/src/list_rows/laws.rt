ghost use Rattle.std.specs.Prelude.{◌≡◌, ℕ, Ok};
ghost use Rattle.usb_base.specs.declared.commands.Cmd.{Cmd};
ghost use Rattle.word_mem.specs.Memory.{Mem};
ghost use Rattle.drv_table.specs.declared.content.Reserve.{Reserve};
ghost use Rattle.drv_table.specs.declared.content.Mend.{Mend};
ghost use Rattle.drv_table.specs.declared.rows.DriverRow.TheVariants as rows;
ghost use Rattle.drv_table.specs.DriverContent.{DriverContent};
ghost use Rattle.drv_table.specs.Opening.{opening};
ghost use Rattle.drv_table.specs.Accepting.{Offered};
ghost use Rattle.drv_table.specs.Offers.{offered};
ghost use Rattle.drv_table.specs.Parts.{Parts};
ghost use Rattle.drv_table.specs.Rows.{driver_row, after_driver_row};
ghost use Rattle.claims_driver.specs.Leaving.{HasOwners};
ghost use Rattle.law_driver.specs.in_place.InPlace.{IsSound};
ghost use Rattle.claims_driver.specs.FrameWords.{ListStands};
ghost use Rattle.law_frame_list.specs.list_driver.Keeping.{MendsAside};

/// A store that a stalled endpoint is owed leaves the frame list standing.
pub fn mends_keep_it_standing()
    ensures { (p : Parts) → (w : Mend) → driver_row p ≡ rows.Mend w → IsSound p.memory p.driver → MendsAside p.driver → ListStands p.memory p.driver
        → ListStands (after_driver_row (driver_row p) p).memory (after_driver_row (driver_row p) p).driver }
{}

/// At each moment none of these stores goes into the run of the frame list.
pub fn mends_go_into_queue_heads()
    ensures opening { (n : ℕ) → (room : Reserve) → MendsAside (opening n room).driver }
    ensures event { (p : Parts) → HasOwners p.driver → MendsAside p.driver → MendsAside (after_driver_row (driver_row p) p).driver }
    ensures command { (d : DriverContent) → (m : Mem) → (cmd : Cmd) → (o : Offered) → offered d m cmd ≡ Ok o → MendsAside d → MendsAside o.driver }
{}

/// The store that unlinks a harvested descriptor leaves it standing, without the descriptor.
pub fn unlinks_keep_it_standing()
    ensures { (p : Parts) → (t : ℕ) → driver_row p ≡ rows.Unlink t → IsSound p.memory p.driver → ListStands p.memory p.driver
        → ListStands (after_driver_row (driver_row p) p).memory (after_driver_row (driver_row p) p).driver }
{}
