//! What the senders of a script have at the opening (USB 2.0, 8.6): each has all the packets that the script has for the endpoint of its name.
//!
//! The module has no code of its own: each function is a law over the definitions of `law_devices` and `claims_report`, and its body is empty.

ghost use Rattle.std.specs.Prelude.{◌≡◌, List, [], ◌∷◌, Some, false};
ghost use Rattle.script_types.specs.declared.devices.Item.TheVariants.{Bytes, Nak};
ghost use Rattle.bus_wire.specs.Bus.{opening_wired};
ghost use Rattle.claims_report.specs.Samples.{script_of, sender, bulk};
ghost use Rattle.law_devices.specs.Senders.{sender_of};
ghost use Rattle.law_devices.specs.opening_senders.Own.{HasOwnDevices, OpeningSends};

/// A sender has at the opening what the script has for it.
pub fn opening_sends()
    ensures { OpeningSends }
{}

/// A script with one device and one endpoint: the device is its own, and has its two packets to send.
pub fn one_sender()
    ensures own { HasOwnDevices (script_of (bulk sender) (Nak 1 ∷ Bytes (1 ∷ 2 ∷ []) ∷ Bytes (3 ∷ []) ∷ []) []) }
    ensures sends { sender_of (opening_wired (script_of (bulk sender) (Nak 1 ∷ Bytes (1 ∷ 2 ∷ []) ∷ Bytes (3 ∷ []) ∷ []) [])) 3 1
        ≡ Some (record { left = (1 ∷ 2 ∷ []) ∷ (3 ∷ []) ∷ []; sends = false }) }
{}
