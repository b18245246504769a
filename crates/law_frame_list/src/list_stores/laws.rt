ghost use Rattle.std.specs.Prelude.{◌≡◌, Some};
ghost use Rattle.word_mem.specs.Memory.{Mem, IsShaped};
ghost use Rattle.mem_runs.specs.Book.{holding, Stands};
ghost use Rattle.drv_periodic.specs.declared.work.Store.{Store};
ghost use Rattle.drv_periodic.specs.Periodic.{next_store};
ghost use Rattle.drv_table.specs.DriverContent.{DriverContent};
ghost use Rattle.claims_driver.specs.Leaving.{HasOwners};
ghost use Rattle.law_driver.specs.listed_members.Members.{IsListed};
ghost use Rattle.claims_driver.specs.FrameWords.{ListStands};
ghost use Rattle.law_frame_list.specs.list_stores.Storing.{IsStoredFor};

/// Where everything stands, the next store of the list leaves words that stand for it.
pub fn each_store_of_the_list_is_made()
    ensures { (d : DriverContent) (m : Mem) (s : Store) → Stands (holding d.book m) → IsShaped m → HasOwners d → IsListed d → ListStands m d
        → next_store d.periodic.list ≡ Some s → IsStoredFor m d s }
{}
