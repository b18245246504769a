//! A worked row, which the check computes.
ghost use Rattle.std.specs.Prelude.{◌≡◌, Some, None};
ghost use Rattle.law_frames.specs.Met.{Kind, AQueue, AnItd};
ghost use Rattle.law_descriptors.specs.Meeting.{standing_in};
ghost use Rattle.law_descriptors.specs.RowWorked.{list, unstored};

/// A queue head is met from the first store of its linking on, and the iTD ahead of it all the time; nothing else is.
pub fn a_queue_head_is_met_once_it_is_led_to()
    ensures led { standing_in list 4160 ≡ Some AQueue }
    ensures itd { standing_in list 4480 ≡ Some AnItd }
    ensures not_yet { standing_in unstored 4160 ≡ None }
    ensures ahead { standing_in unstored 4480 ≡ Some AnItd }
    ensures other { standing_in list 4096 ≡ None }
{}
