//! The plan of a translator (USB 2.0, 11.18.1 and 11.18.4).
ghost use Rattle.law_translator.specs.hub_plans.Laws.{HubPlansFit, PlacesAreKept};

/// Where all that is placed keeps the budgets and each is placed as it may be, the plan of each translator in each frame lays at most
/// 188 byte-times in each microframe, and none after the frame.
pub fn hub_plans_fit()
    ensures { HubPlansFit }
{}

/// .. and it has each endpoint as it is placed.
pub fn places_are_kept()
    ensures { PlacesAreKept }
{}
