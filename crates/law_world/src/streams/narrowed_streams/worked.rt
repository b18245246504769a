//! Worked rows, which the check computes.
ghost use Rattle.std.specs.Prelude.{◌≡◌, true, false};
ghost use Rattle.usb_base.specs.declared.packets.Way.TheVariants as ways;
ghost use Rattle.law_world.specs.streams.narrowed_streams.Narrowed.{is_side, left_names};
ghost use Rattle.law_world.specs.streams.narrowed_streams.Samples.{before, after};

/// Of two IN endpoints and an OUT endpoint with the name of the second IN one, this second one has left when the doorbell is answered, and was still met before.
pub fn one_has_left()
    ensures met { left_names before true 6 1 ≡ false }
    ensures left { left_names after true 6 1 ≡ true }
    ensures stays { left_names after true 5 1 ≡ false }
    ensures out { left_names after false 6 1 ≡ false }
    ensures no_other { left_names after true 6 2 ≡ false }
    ensures side { is_side false ways.Out ≡ true }
{}
