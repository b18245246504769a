//! The laws of the stores of the frame list.
ghost use Rattle.law_descriptors.specs.ListRows.{NextStoreLeavesBoth, LinkRowsLeaveBoth, UnlinkRowsLeaveBoth, StoreKeepsParts, UnlinkDrives, LinkDrives, LentComes, WaitingIsFresh};

/// Whatever both walks have in hand, the controller goes on over both once the next store of the list was made: those are met that stand then, and what was
/// unlinked in this microframe, which is also the member whose last unlinking store it is (4.6).
pub fn next_store_leaves_both()
    ensures { NextStoreLeavesBoth }
{}

/// So it does where a command links or unlinks members, in each of its stores.
pub fn link_rows_leave_both()
    ensures { LinkRowsLeaveBoth }
{}

/// And so it does where a harvested descriptor is unlinked: it is met until the next microframe begins, as what it is.
pub fn unlink_rows_leave_both()
    ensures { UnlinkRowsLeaveBoth }
{}

/// A descriptor that is lent has all that a member brings that is linked, where none that was unlinked in this microframe was there; and one that waits in its
/// frame wasn't unlinked, unless a command is unlinking its endpoint's.
pub fn lent_descriptors_may_come()
    ensures lent { LentComes }
    ensures fresh { WaitingIsFresh }
{}

/// Each of these stores leaves every structure of its kind and as far as it reached, and each descriptor one still.
pub fn store_keeps_parts()
    ensures { StoreKeepsParts }
{}

/// So the driver goes on beside both walks, with what its structures became: what a command unlinks is recent until the command is finished, and then it is what
/// was removed last; a harvested descriptor is removed by its one store.
pub fn a_driver_that_stores_goes_on()
    ensures command { LinkDrives }
    ensures harvested { UnlinkDrives }
{}
