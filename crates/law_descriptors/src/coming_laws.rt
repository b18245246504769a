//! The laws of descriptors that wait in their frames while a command links members.
ghost use Rattle.law_descriptors.specs.Coming.{DescriptorsAreLent, LinkingLendsNothing, WaitingAreLent, WaitingComes, WaitingMembersCome};

/// Where the unfinished command has nothing more to lend, each descriptor that wasn't given back is lent; and a command that has made its own events has nothing
/// more to lend.
pub fn a_command_lends_before_it_links()
    ensures descriptors { DescriptorsAreLent }
    ensures command { LinkingLendsNothing }
{}

/// So a descriptor that waits in its frame is lent while members are linked, and has all that a member brings that is linked next.
pub fn waiting_descriptors_may_come()
    ensures lent { WaitingAreLent }
    ensures comes { WaitingComes }
    ensures members { WaitingMembersCome }
{}
