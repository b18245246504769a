//! A worked script, which the check computes: an IN and an OUT endpoint of one device and one number, both opened. Each is found by its way.
ghost use Rattle.std.specs.Prelude.{◌≡◌, [], ◌∷◌, false, Some, None};
ghost use Rattle.bus_wire.specs.Bus.{opening_wired};
ghost use Rattle.law_devices.specs.Senders.{sender_of};
ghost use Rattle.law_devices.specs.scripted_takers.Takers.{taker_of};
ghost use Rattle.law_devices.specs.DeclaredEndpoints.{OpensSenders};
ghost use Rattle.law_devices.specs.declared_takers.Samples.{both_ways};

/// The taker of the OUT endpoint, and the sender of the IN endpoint of its number.
pub fn opened_taker()
    ensures taker { taker_of (opening_wired both_ways) 3 2 ≡ Some (record { taken = []; expects = false }) }
    ensures sender { sender_of (opening_wired both_ways) 3 2 ≡ Some (record { left = (7 ∷ 9 ∷ []) ∷ []; sends = false }) }
    ensures senders { OpensSenders both_ways }
    ensures no_out { taker_of (opening_wired both_ways) 3 1 ≡ None }
    ensures nobody { taker_of (opening_wired both_ways) 4 2 ≡ None }
{}
