//! The words of siTDs tell of their endpoints (EHCI 1.0, 3.4, 4.6 and 4.12.3; USB 2.0, 5.6.3, 5.9.2 and 11.18.4).
ghost use Rattle.law_microframes.specs.time.SitdFields.{SitdsAreStable, TextsFitSlots, ControllerKeepsSitds, DriverKeepsSitds, ScriptsKeepSitds};

/// A transaction, a miss and a write-back leave a siTD with its way and its masks, and what is left of its bytes in parts.
pub fn sitds_are_stable()
    ensures { SitdsAreStable }
{}

/// No line of a script that a text spells asks for more bytes in a slot of an isochronous endpoint than its packets can have.
pub fn texts_fit_slots()
    ensures { TextsFitSlots }
{}

/// Each event of the controller leaves the fields of the driver's siTDs, in memory and in the copy in hand.
pub fn controller_keeps_sitds()
    ensures { ControllerKeepsSitds }
{}

/// So does each event of the driver.
pub fn driver_keeps_sitds()
    ensures { DriverKeepsSitds }
{}

/// So they stand at each moment of each script that fits, and that asks for no more bytes in a slot than its endpoint's packets have.
pub fn scripts_keep_sitds()
    ensures { ScriptsKeepSitds }
{}
