//! The laws.
ghost use Rattle.law_world.specs.streams.taken_reports.Laws.{ClosingTellsTaker, ReportIsTaken};
ghost use Rattle.law_world.specs.streams.taken_reports.Turns.{TextIsSeated, MicroframeKeepsAddresses, TransactionKeepsAddresses};
ghost use Rattle.law_world.specs.streams.taken_reports.Turns.{EventKeepsSeats, CommandKeepsSeats, RunKeepsSeats, MomentIsSeated};

/// What a closing line says that a device took is what the taker of its endpoint took.
pub fn closing_tells_taker()
    ensures { ClosingTellsTaker }
{}

/// Where its lines, and what is held back behind them, begin what the taker of each OUT endpoint took, they begin what its closing lines tell.
pub fn report_is_taken()
    ensures { ReportIsTaken }
{}

/// Each IN and OUT endpoint that a text opens has its seat, and no two of its devices have one address.
pub fn text_is_seated()
    ensures { TextIsSeated }
{}

/// No event of a bus changes the address of a device.
pub fn each_event_keeps_addresses()
    ensures microframe { MicroframeKeepsAddresses }
    ensures transaction { TransactionKeepsAddresses }
{}

/// So the bus of a world stays seated, at each event and command.
pub fn each_moment_is_seated()
    ensures event { EventKeepsSeats }
    ensures command { CommandKeepsSeats }
    ensures run { RunKeepsSeats }
    ensures moment { MomentIsSeated }
{}
