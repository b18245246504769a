ghost use Rattle.std.specs.Prelude.{◌≡◌, ℕ, ◌%◌, ◌≤◌, true};
ghost use Rattle.word_mem.specs.Memory.{Mem, word_at};
ghost use Rattle.drv_table.specs.declared.content.Reserve.{Reserve};
ghost use Rattle.drv_table.specs.DriverContent.{DriverContent};
ghost use Rattle.drv_table.specs.Opening.{opening};
ghost use Rattle.drv_table.specs.Parts.{Parts};
ghost use Rattle.drv_table.specs.Rows.{driver_row, after_driver_row};
ghost use Rattle.law_driver_ring.specs.Driven.{is_quiet};
ghost use Rattle.law_frame_words.specs.list_words.Spared.{LeavesList};
ghost use Rattle.claims_driver.specs.FrameWords.{ListStands};

/// The list of a driver that was just built: every element ends its frame.
pub fn a_new_list_stands()
    ensures { (n : ℕ) (room : Reserve) → 2048 ≤ n → n ≤ 262144 → n % 1024 ≡ 0 → ListStands (opening n room).memory (opening n room).driver }
{}

/// Whatever else is written, it stands where the elements and the links of its members are left.
pub fn it_stands_where_its_words_are_left()
    ensures { (d : DriverContent) (m new : Mem) → LeavesList d.periodic.list (word_at m) (word_at new) → ListStands m d → ListStands new d }
{}

/// An event of the driver that stores no word keeps it so.
pub fn quiet_events_keep_it_standing()
    ensures { (p : Parts) → is_quiet (driver_row p) ≡ true → ListStands p.memory p.driver → ListStands (after_driver_row (driver_row p) p).memory (after_driver_row (driver_row p) p).driver }
{}
