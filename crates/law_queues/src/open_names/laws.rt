//! The laws.
ghost use Rattle.law_queues.specs.open_names.Names.{NamesStayApart, AcceptedNamesAreApart, NewNamesAreApart};

/// A driver that was just built has no endpoint, each of its events leaves their descriptions, and an endpoint that is opened has a new name.
pub fn names_stay_apart()
    ensures new { NewNamesAreApart }
    ensures events { NamesStayApart }
    ensures accepted { AcceptedNamesAreApart }
{}
