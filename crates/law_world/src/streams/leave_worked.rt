//! Worked rows, which the check computes.
ghost use Rattle.std.specs.Prelude.{◌≡◌, true, false};
ghost use Rattle.law_devices.specs.Samples.{second};
ghost use Rattle.law_world.specs.streams.LeaveSamples.{both_streams, one_stream};

/// Of two IN endpoints the second has left: its stream is closed then, and the first has its own still.
pub fn one_is_closed()
    ensures before { both_streams.stream 6 1 ≡ true }
    ensures closed { one_stream.stream 6 1 ≡ false }
    ensures stays { one_stream.stream 5 1 ≡ true }
    ensures unmet { one_stream.streams 4480 ≡ false }
    ensures met { one_stream.streams 4160 ≡ true }
{}
