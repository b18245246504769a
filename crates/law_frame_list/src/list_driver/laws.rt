ghost use Rattle.std.specs.Prelude.{◌≡◌, ℕ, ◌%◌, ◌≤◌, Ok};
ghost use Rattle.usb_base.specs.declared.commands.Cmd.{Cmd};
ghost use Rattle.word_mem.specs.Memory.{Mem};
ghost use Rattle.drv_table.specs.declared.content.Reserve.{Reserve};
ghost use Rattle.drv_table.specs.DriverContent.{DriverContent};
ghost use Rattle.drv_table.specs.Opening.{opening};
ghost use Rattle.drv_table.specs.Accepting.{Offered};
ghost use Rattle.drv_table.specs.Offers.{offered};
ghost use Rattle.drv_table.specs.Parts.{Parts};
ghost use Rattle.drv_table.specs.Rows.{driver_row, after_driver_row};
ghost use Rattle.law_driver.specs.in_place.InPlace.{IsSound};
ghost use Rattle.law_driver.specs.iso_frames.Frames.{AreInFrames};
ghost use Rattle.law_frame_list.specs.list_driver.Keeping.{KeepsItsList};

/// A driver that was just built.
pub fn a_new_driver_keeps_its_list()
    ensures { (n : ℕ) → (room : Reserve) → 2048 ≤ n → n ≤ 262144 → n % 1024 ≡ 0 → KeepsItsList (opening n room).memory (opening n room).driver }
{}

/// Each event of the driver, of any row.
pub fn events_keep_the_list()
    ensures { (p : Parts) → IsSound p.memory p.driver → AreInFrames p.driver → KeepsItsList p.memory p.driver
        → KeepsItsList (after_driver_row (driver_row p) p).memory (after_driver_row (driver_row p) p).driver }
{}

/// Each accepted command.
pub fn commands_keep_the_list()
    ensures { (d : DriverContent) → (m : Mem) → (cmd : Cmd) → (o : Offered) → offered d m cmd ≡ Ok o → IsSound m d → KeepsItsList m d
        → KeepsItsList o.memory o.driver }
{}
