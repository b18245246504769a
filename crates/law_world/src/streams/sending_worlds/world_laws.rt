//! The laws.
ghost use Rattle.law_world.specs.streams.sending_worlds.WorldLaws.{CommandKeepsSending};

/// So does each command: an accepted put is one more.
pub fn command_keeps_sending()
    ensures { CommandKeepsSending }
{}
