ghost use Rattle.word_mem.specs.Memory.{Mem};
ghost use Rattle.mem_runs.specs.Book.{holding, Stands};
ghost use Rattle.drv_table.specs.DriverContent.{DriverContent};
ghost use Rattle.drv_table.specs.Accepting.{Offered};
ghost use Rattle.claims_driver.specs.Leaving.{HasOwners};
ghost use Rattle.law_driver.specs.listed_members.Members.{IsListed};
ghost use Rattle.claims_driver.specs.FrameWords.{ListStands};
ghost use Rattle.law_frame_list.specs.list_commands.Kinds.{OpensOrCancels};

/// The accepted open of a bulk, control or isochronous endpoint, and an accepted cancel of any, leave the frame list standing.
pub fn opens_and_cancels_keep_it_standing()
    ensures { (d : DriverContent) (m : Mem) (o : Offered) → OpensOrCancels d m o → Stands (holding d.book m) → HasOwners d → IsListed d → ListStands m d
        → ListStands o.memory o.driver }
{}
