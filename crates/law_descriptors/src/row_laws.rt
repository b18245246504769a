//! The laws.
ghost use Rattle.law_descriptors.specs.RowLaws.{ElementsLeadToStanding, MembersLeadToStanding, StandingAreClosed, ListLeadsToStanding, BeginMeetsMembers};
ghost use Rattle.law_descriptors.specs.Rows.{ReadFrameDrives, ReadStatusDrives, AdvanceDrives, BellDrives, ElementStoreMeets, LinkStoreMeets, StandingDescriptorsAreMet};
ghost use Rattle.law_descriptors.specs.Growing.{StoresKeepMembers, MembersStayMet};
ghost use Rattle.law_descriptors.specs.Staying.{UnlinkIsRecent, UnchainIsRecent, ReleaseLeavesRecent};
ghost use Rattle.law_descriptors.specs.Returned.{DescriptorsAreUnmet, WaitingAreUnmet};

/// Each element of the frame list, and each link of a member to which a word may lead, leads to such a member, as what it is, or ends the chain.
pub fn links_lead_to_members()
    ensures elements { ElementsLeadToStanding }
    ensures members { MembersLeadToStanding }
    ensures closed { StandingAreClosed }
    ensures list { ListLeadsToStanding }
{}

/// So from the begin of a microframe on they alone are met: what was unlinked before isn't (4.6).
pub fn begin_meets_members()
    ensures { BeginMeetsMembers }
{}

/// Rows that read or write a register alone leave the frames and the descriptors, and what was unlinked in this microframe stays open: a reading of the same
/// frame shows no later one (2.3.4, 4.6).
pub fn readings_leave_the_frames()
    ensures frame { ReadFrameDrives }
    ensures status { ReadStatusDrives }
    ensures advance { AdvanceDrives }
    ensures bell { BellDrives }
{}

/// A store of the frame list leaves both walks, whatever they have in hand: once it is made those are met that stand then, and what was unlinked in this
/// microframe.
pub fn stores_of_the_list_leave_both()
    ensures element { ElementStoreMeets }
    ensures link { LinkStoreMeets }
{}

/// A descriptor that stands in its frame, with its buffer, is sound where it is met.
pub fn standing_descriptors_are_met()
    ensures { StandingDescriptorsAreMet }
{}

/// A descriptor that is given back next, by itself or with its endpoint, isn't met: it isn't linked, and two readings of FRINDEX since its unlinking had
/// different frame numbers (2.3.4, 4.6).
pub fn what_is_given_back_is_not_met()
    ensures descriptor { DescriptorsAreUnmet }
    ensures waiting { WaitingAreUnmet }
{}

/// Once the next store of the list was made, each member that stood stands, but the one whose last unlinking store it is; where this is recent from then on, all
/// that were met are met.
pub fn those_that_are_met_stay_met()
    ensures store { StoresKeepMembers }
    ensures met { MembersStayMet }
{}

/// What is recent stays recent: a descriptor is from its unlinking on, what a finished command unlinked is what was removed last, and a release takes the first
/// that was removed, which no recent one is.
pub fn what_is_recent_stays_recent()
    ensures unlink { UnlinkIsRecent }
    ensures unchain { UnchainIsRecent }
    ensures release { ReleaseLeavesRecent }
{}
