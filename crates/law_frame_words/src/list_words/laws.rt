ghost use Rattle.drv_periodic.specs.Periodic.{Periodic};
ghost use Rattle.law_frame_words.specs.list_words.Laws.{StandsWhereLeft, LeftByStores};

/// Where each element and each member's link is left as it was, the words stand for the list as before, whatever else was written.
pub fn what_leaves_its_words_leaves_the_list()
    ensures { (p : Periodic) → StandsWhereLeft p }
{}

/// A store to an address that is none of theirs leaves all of them.
pub fn a_store_elsewhere_leaves_them()
    ensures { (p : Periodic) → LeftByStores p }
{}
