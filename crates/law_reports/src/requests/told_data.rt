//! What is told of a driver's requests, along its run.
ghost use Rattle.law_reports.specs.requests.Silent.{RowKeepsSilent, CommandKeepsSilent};

/// Of a control request bytes are told of its data alone: each event of the driver and each command leaves it so.
pub fn bytes_are_told_of_data_alone()
    ensures row { RowKeepsSilent }
    ensures command { CommandKeepsSilent }
{}
