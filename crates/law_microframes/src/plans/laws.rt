//! What a driver has placed, at each moment (USB 2.0, 11.14 and 11.18; EHCI 1.0, 4.12).
ghost use Rattle.law_microframes.specs.plans.Laws.{ScriptsPlaceRight, ScriptsNameApart, TextsPlanHubs};

/// Each endpoint that is placed is one that may be placed, and it has one of the placements that it may have.
pub fn scripts_place_right()
    ensures { ScriptsPlaceRight }
{}

/// No two endpoints of the driver have one address, one number and one way.
pub fn scripts_name_apart()
    ensures { ScriptsNameApart }
{}

/// So what is placed below each translator fits in each frame: at most 188 byte-times are laid in each microframe, which is what the
/// promise of a translator asks for.
pub fn texts_plan_hubs()
    ensures { TextsPlanHubs }
{}
