//! The laws.
ghost use Rattle.law_queues.specs.fed_events.Beside.{FedStaysBeside, LastStaysBeside};

/// What an event of the controller keeps of each structure is enough for the pieces of the transfers, and for their order.
pub fn queues_stay_fed_beside_the_controller()
    ensures fed { FedStaysBeside }
    ensures last { LastStaysBeside }
{}
