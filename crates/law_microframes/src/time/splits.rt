//! What split transactions cost at high speed, and the masks by which they are made (EHCI 1.0, 3.4, 3.6.2, 4.10, 4.12.2, 4.12.2.4 and
//! 4.12.3; USB 2.0, 5.11.3 and 11.18).
ghost use Rattle.law_microframes.specs.time.SplitMasks.{AllowedAreSplit, NewIsAllowed, EventsKeepAllowed, CommandsKeepAllowed, ScriptsKeepAllowed};
ghost use Rattle.law_microframes.specs.time.SplitCharges.{SplitsArePriced};
ghost use Rattle.law_microframes.specs.time.SitdParts.{PartsStay, PartsAreWithin, SitdsArePriced};

/// In each allowed placement of an endpoint below a hub no microframe of the C-mask stands in the S-mask, and the microframes of the S-mask
/// come one after the other.
pub fn allowed_are_split()
    ensures { AllowedAreSplit }
{}

/// Each placement of the plan is one that its endpoint may have: before the first line, after each event of the driver and each accepted
/// command, and so at each moment of each script that fits.
pub fn each_placement_is_allowed()
    ensures new { NewIsAllowed }
    ensures driver { EventsKeepAllowed }
    ensures command { CommandsKeepAllowed }
    ensures scripts { ScriptsKeepAllowed }
{}

/// While the queue head of a placed interrupt endpoint below a hub is in hand, an event adds the price of a start-split or a complete-split
/// to what was paid, no more than the placement has for this microframe, whatever the bus replies; one that is made again at once adds
/// nothing. The visit goes on, or is over.
pub fn splits_are_priced()
    ensures { SplitsArePriced }
{}

/// While the siTD of a placed isochronous endpoint is active its bytes are no more than the largest packet, and of an OUT those that are
/// left stand in the microframes that the placement has for them: a transaction leaves it so, and costs no more than the placement has for
/// its microframe.
pub fn parts_of_a_packet_are_placed()
    ensures stay { PartsStay }
    ensures within { PartsAreWithin }
{}

/// While such a siTD is in hand, an event costs nothing and ends the visit, or makes one transaction, at its price, no more than the
/// placement has for this microframe, whatever the bus replies.
pub fn sitds_are_priced()
    ensures { SitdsArePriced }
{}
