ghost use Rattle.law_queues.specs.harvest_laws.HeldLaws.{OpenHolds, AskedHolds, RequestedHolds, ReturnHolds};

/// An accepted open, an accepted get or put, and an accepted request of a control endpoint.
pub fn accepted_commands_keep_what_is_held()
    ensures open { OpenHolds }
    ensures asked { AskedHolds }
    ensures requested { RequestedHolds }
{}

/// A reported transfer is given back.
pub fn return_holds()
    ensures { ReturnHolds }
{}
