//! The laws.
ghost use Rattle.std.specs.Prelude.{◌≡◌, ℕ, ◌≤◌, ◌<◌, ◌*◌, List, length, Ok};
ghost use Rattle.std.specs.List.{AllByRecursion};
ghost use Rattle.usb_base.specs.declared.commands.Cmd.{Cmd};
ghost use Rattle.word_mem.specs.Memory.{Mem};
ghost use Rattle.bandwidth.specs.declared.placements.Placement.{Placement as Place};
ghost use Rattle.bandwidth.specs.Placements.{frame_period};
ghost use Rattle.mem_runs.specs.Book.{holding, Stands};
ghost use Rattle.drv_table.specs.declared.content.Reserve.{Reserve};
ghost use Rattle.drv_table.specs.DriverContent.{DriverContent};
ghost use Rattle.drv_table.specs.Accepting.{Offered};
ghost use Rattle.drv_table.specs.Offers.{offered, IsOffered};
ghost use Rattle.drv_table.specs.Opening.{opening};
ghost use Rattle.drv_table.specs.Parts.{Parts};
ghost use Rattle.drv_table.specs.Rows.{driver_row, after_driver_row};
ghost use Rattle.claims_driver.specs.Leaving.{HasOwners};
ghost use Rattle.law_driver.specs.listed_members.Members.{IsListed};
ghost use Rattle.law_driver.specs.planned_endpoints.Planned.{IsPlanned};
ghost use Rattle.law_driver.specs.iso_frames.Steps.{AreInStep, AreApart};
ghost use Rattle.law_driver.specs.iso_frames.Frames.{AreInFrames};
ghost use Rattle.claims_driver.specs.DueMembers.{AreDueDescriptors, HasOneEach};

/// Frames that follow each other one period after the other, and span no more than the list has, are all different.
pub fn frames_in_step_are_apart()
    ensures { (p : Place) (fs : List ℕ) → AllByRecursion (λ f. f < 1024) fs → length fs * frame_period p.period ≤ 1024 → AreInStep p fs → AreApart fs }
{}

/// A driver that was just built has no descriptors.
pub fn opening_frames()
    ensures { (n : ℕ) (room : Reserve) → AreInFrames (opening n room).driver }
{}

/// Each accepted command leaves the descriptors in step: those that are taken on span no more than the list with those that wait.
pub fn commands_keep_the_frames()
    ensures { (d : DriverContent) (m : Mem) (cmd : Cmd) (o : Offered) → Stands (holding d.book m) → HasOwners d → IsPlanned d → IsOffered d.room cmd
        → AreInFrames d → offered d m cmd ≡ Ok o → AreInFrames o.driver }
{}

/// Each event of the driver does: the frames that are chosen follow those of the endpoint that wait, and its first one is harvested first.
pub fn events_keep_the_frames()
    ensures { (p : Parts) → HasOwners p.driver → IsListed p.driver → IsPlanned p.driver → AreInFrames p.driver → AreInFrames (after_driver_row (driver_row p) p).driver }
{}

/// So each descriptor that is linked in a frame is one that waits, of an endpoint whose placement counts in the plan and is active in the frame; or it
/// was harvested, and is to be unlinked.
pub fn descriptors_of_a_frame_are_due()
    ensures { (d : DriverContent) (f : ℕ) → HasOwners d → IsListed d → IsPlanned d → AreInFrames d → AreDueDescriptors d f }
{}

/// And of an endpoint at most one waits in a frame.
pub fn an_endpoint_has_one_descriptor_a_frame()
    ensures { (d : DriverContent) → HasOwners d → IsListed d → AreInFrames d → HasOneEach d }
{}
