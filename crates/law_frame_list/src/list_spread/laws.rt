ghost use Rattle.word_mem.specs.Memory.{Mem};
ghost use Rattle.mem_runs.specs.Book.{holding, Stands};
ghost use Rattle.law_frame_words.specs.frame_words.InWords.{IsSpread};
ghost use Rattle.drv_table.specs.DriverContent.{DriverContent};
ghost use Rattle.claims_driver.specs.Leaving.{HasOwners};
ghost use Rattle.law_driver.specs.listed_members.Members.{IsListed};

/// Where the book stands and each run has one owner, the members of the frame list are spread.
pub fn members_share_no_block()
    ensures { (d : DriverContent) (m : Mem) → Stands (holding d.book m) → HasOwners d → IsListed d → IsSpread d.periodic.list.list d.periodic.list.members.schedule }
{}
