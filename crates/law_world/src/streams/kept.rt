//! The laws of new worlds, of commands, and of the rows of the driver by which no endpoint leaves and none is given back.
ghost use Rattle.law_world.specs.streams.LeftLaws.{CommandKeepsLeft};
ghost use Rattle.law_world.specs.streams.LeftLaws.{RowKeepsLeft};

/// A command, accepted or refused, leaves what is known of the endpoints that have left.
pub fn command_keeps_left()
    ensures { CommandKeepsLeft }
{}

/// So does each row of the driver but those by which Async Advance is cleared and endpoints are given back, where no two endpoints have one name.
pub fn row_keeps_left()
    ensures { RowKeepsLeft }
{}
