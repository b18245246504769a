//! What is due of an isochronous endpoint, told by what was asked of its driver (EHCI 1.0, 3.3, 3.4, 4.6, 4.7.1 and 4.12.3).
ghost use Rattle.law_reports.specs.due_at_begin.Stored.{TextsHaveStoredSlotsDue, TextsHaveStoredSitdsDue};

/// Of an isochronous endpoint that isn't cancelled an iTD that is stored for the frame of the microframe is linked there; so its slot is
/// due where it is active.
pub fn texts_have_stored_slots_due()
    ensures { TextsHaveStoredSlotsDue }
{}

/// So a siTD is due that is stored for the frame of the microframe, and of which a transaction comes in it.
pub fn texts_have_stored_sitds_due()
    ensures { TextsHaveStoredSitdsDue }
{}
