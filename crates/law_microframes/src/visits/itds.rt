//! The words of isochronous descriptors tell of their endpoints (EHCI 1.0, 3.3, 3.3.2, 3.3.3, 4.6 and 4.7; USB 2.0, 5.9).
ghost use Rattle.law_microframes.specs.visits.DescriptorFields.{ItdIsRead, HarvestedIsRead, NewItdsStand, ControllerKeepsItds, ItdWordsStay, DriverKeepsItdFields, DriverKeepsItds, CommandKeepsItds, ScriptsKeepItds};

/// What is read of an iTD that waits for its harvest has the fields of its endpoint, as it is placed, where these stand in memory (3.3.2, 3.3.3); and of one that was harvested
/// no microframe is active.
pub fn an_itd_that_is_read_is_that_of_its_endpoint()
    ensures read { ItdIsRead }
    ensures harvested { HarvestedIsRead }
{}

/// The fields stand before the first line, where there is no iTD, and each event of the controller leaves them so: it may end microframes, and activates none (4.7.1).
pub fn the_controller_leaves_the_fields_of_itds()
    ensures new { NewItdsStand }
    ensures controller { ControllerKeepsItds }
{}

/// An event of the driver leaves all words but the link of an iTD that it has before and after it; else it stores a word that the queue head in its place was owed.
pub fn itd_words_stay()
    ensures { ItdWordsStay }
{}

/// So it leaves the fields of its iTDs, those that it goes on having; and what it harvests was served, and stays so.
pub fn the_driver_leaves_the_fields_of_itds()
    ensures fields { DriverKeepsItdFields }
    ensures stand { DriverKeepsItds }
{}

/// So does each command, refused or accepted; what it takes on is written with the fields of its endpoint.
pub fn command_keeps_itds()
    ensures { CommandKeepsItds }
{}

/// So they stand at each moment of each script that fits.
pub fn scripts_keep_itds()
    ensures { ScriptsKeepItds }
{}
