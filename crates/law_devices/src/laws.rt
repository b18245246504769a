//! The laws.
ghost use Rattle.std.specs.Prelude.{ℕ, List};
ghost use Rattle.script_types.specs.declared.scripts.Script.{Script as Told};
ghost use Rattle.script_text.specs.Faults.{Spells};
ghost use Rattle.law_devices.specs.opening_senders.Own.{HasOwnDevices};
ghost use Rattle.law_devices.specs.DeclaredEndpoints.{OpensSenders};

/// Each high-speed bulk IN endpoint that a text opens has its sender on the bus of the script.
pub fn an_opened_endpoint_has_its_sender()
    ensures { (text : List ℕ) (s : Told) → Spells text s → OpensSenders s }
{}

/// Each endpoint of a device that a text tells has the address of its device, and no two devices have one address.
pub fn devices_have_addresses_of_their_own()
    ensures { (text : List ℕ) (s : Told) → Spells text s → HasOwnDevices s }
{}
