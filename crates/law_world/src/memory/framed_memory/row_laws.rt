//! The laws of rows by which a driver reads what was served, and chooses the frames of a command; and of the endpoints that leave their frames.
ghost use Rattle.law_world.specs.memory.framed_memory.IsochronousLaws.{HarvestKeepsNow, FramesKeepNow, OwnersTellLeaving};

/// A token or the slots of a descriptor are read, and what they tell is reported: with the same structures all is framed, and what was unlinked in this
/// microframe is what it was (4.6, 4.7, 4.10.2).
pub fn harvest_keeps_now()
    ensures { HarvestKeepsNow }
{}

/// So it is where the descriptors of a command get their frames by a reading of FRINDEX (2.3.4): no member of the frame list gets another frame by that.
pub fn frames_keep_now()
    ensures { FramesKeepNow }
{}

/// An endpoint whose members a command unlinks, and one that has left its frames and is still to be given back, has ended (4.6): at each moment, of any driver.
pub fn owners_tell_leaving()
    ensures { OwnersTellLeaving }
{}
