//! A worked script, which the check computes: two IN endpoints of one device, the second of which is opened. Its sender has its own packets.
ghost use Rattle.std.specs.Prelude.{◌≡◌, ℕ, List, [], ◌∷◌, false, Some, None};
ghost use Rattle.script_types.specs.declared.scripts.Script.{Script as Told};
ghost use Rattle.law_devices.specs.Samples.{two_senders, second};
ghost use Rattle.law_devices.specs.DeclaredEndpoints.{HasItsSender, OpensSenders};
ghost use Rattle.law_devices.specs.Senders.{sender_of};
ghost use Rattle.bus_wire.specs.Bus.{opening_wired};

/// The sender of the endpoint that is opened.
pub fn opened_sender()
    ensures sender { sender_of (opening_wired two_senders) 3 2 ≡ Some (record { left = (7 ∷ 9 ∷ []) ∷ []; sends = false }) }
    ensures opens { OpensSenders two_senders }
    ensures nobody { sender_of (opening_wired two_senders) 4 2 ≡ None }
{}
