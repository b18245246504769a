//! Worked values of the definitions: the script of a hub with a full-speed device below it, which sends three bytes.
ghost use Rattle.std.specs.Prelude.{[], ◌∷◌};
ghost use Rattle.script_types.specs.declared.devices.Item.TheVariants.{Bytes, Request};
ghost use Rattle.bus_wire.specs.Bus.{opening_bus};
ghost use Rattle.bus_wire.specs.Samples.{script};
ghost use Rattle.law_scripts.specs.byte_answers.Bytes.{IsByteItem, IsByteScript, IsByteBus};

/// Its endpoints say bytes, and so does its bus at the opening.
pub fn three_bytes()
    ensures script { IsByteScript (script []) }
    ensures bus { IsByteBus (opening_bus (script [])) }
{}

/// 255 is a byte, and 256 isn't.
pub fn the_last_byte()
    ensures last { IsByteItem (Bytes (255 ∷ [])) }
    ensures reply { IsByteItem (Request (256 ∷ []) (255 ∷ [])) }
    ensures past { IsByteItem (Bytes (256 ∷ [])) → ⊥ }
{}
