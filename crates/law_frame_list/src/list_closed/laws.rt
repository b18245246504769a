ghost use Rattle.word_mem.specs.Memory.{Mem};
ghost use Rattle.drv_table.specs.DriverContent.{DriverContent};
ghost use Rattle.law_frame_words.specs.frame_words.InWords.{IsSpread};
ghost use Rattle.law_driver.specs.listed_members.Members.{IsListed};
ghost use Rattle.claims_driver.specs.FrameWords.{ListStands};
ghost use Rattle.law_frame_list.specs.list_closed.Closed.{ListIsClosed, MembersAreClosed, MeetsMembersAlone, HaveFrames, TellStructures};

/// Each element of the list leads to a member of its frame, or ends the frame's chain.
pub fn elements_lead_to_members()
    ensures { (m : Mem) (d : DriverContent) → ListStands m d → IsSpread d.periodic.list.list d.periodic.list.members.schedule → ListIsClosed m d }
{}

/// The own link of each member leads in each of its frames to a member of that frame, or ends the chain.
pub fn members_lead_to_members()
    ensures { (m : Mem) (d : DriverContent) → ListStands m d → IsSpread d.periodic.list.list d.periodic.list.members.schedule → MembersAreClosed m d }
{}

/// Whoever follows the links of a frame from its element meets members of that frame alone, until the chain ends.
pub fn a_walk_meets_members_alone()
    ensures { (m : Mem) (d : DriverContent) → ListStands m d → IsSpread d.periodic.list.list d.periodic.list.members.schedule → MeetsMembersAlone m d }
{}

/// Each member has a frame: it stands in its first.
pub fn members_stand_in_their_first_frame()
    ensures { (m : Mem) (d : DriverContent) → ListStands m d → HaveFrames d }
{}

/// Read as a link, such a word tells the block and the type of the structure that begins there.
pub fn links_tell_structures()
    ensures { (d : DriverContent) → IsListed d → TellStructures d }
{}
