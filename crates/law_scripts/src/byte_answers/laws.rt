//! The laws.
ghost use Rattle.std.specs.Prelude.{ℕ, List};
ghost use Rattle.usb_base.specs.declared.packets.Ask.{Ask as Asked};
ghost use Rattle.script_types.specs.declared.scripts.Script.{Script as Told};
ghost use Rattle.bus_wire.specs.Bus.{Fixed, Bus as Devices, opening_bus, begin_after, reply_of, transact_after};
ghost use Rattle.law_scripts.specs.byte_answers.Bytes.{IsByteReply, IsByteScript, IsByteBus};

/// Where a script gives its endpoints bytes to say, all that its bus holds is bytes.
pub fn a_bus_opens_with_bytes()
    ensures { (s : Told) → IsByteScript s → IsByteBus (opening_bus s) }
{}

/// The beginning of a microframe, with the work of all translators before it, leaves it so.
pub fn a_microframe_keeps_bytes()
    ensures { (fixed : Fixed) (frindex : ℕ) (b : Devices) → IsByteBus b → IsByteBus (begin_after fixed frindex b) }
{}

/// What is heard in a transaction is bytes, whatever is asked, and the bus is left so.
pub fn a_transaction_is_heard_as_bytes()
    ensures heard { (fixed : Fixed) (b : Devices) (ask : Asked) (out : List ℕ) → IsByteBus b → IsByteReply (reply_of fixed b ask out) }
    ensures left { (fixed : Fixed) (b : Devices) (ask : Asked) (out : List ℕ) → IsByteBus b → IsByteBus (transact_after fixed b ask out) }
{}
