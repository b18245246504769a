//! The laws.
ghost use Rattle.std.specs.Prelude.{ℕ, List};
ghost use Rattle.usb_base.specs.declared.commands.Cmd.{Cmd as Ordered};
ghost use Rattle.script_types.specs.declared.scripts.Event.{Event as Kind};
ghost use Rattle.script_types.specs.declared.scripts.Script.{Script as Told};
ghost use Rattle.script_text.specs.Faults.{Spells};
ghost use Rattle.bus_wire.specs.Bus.{Fixed, fixed_of};
ghost use Rattle.law_scripts.specs.byte_answers.Bytes.{IsByteScript, IsByteBus};
ghost use Rattle.bus_world.specs.World.{World, next, commanded};
ghost use Rattle.bus_world.specs.Opening.{opening_world};
ghost use Rattle.bus_world.specs.Orders.{OrderedWorld, ticks};
ghost use Rattle.bus_world.specs.Budgets.{moment};
ghost use Rattle.law_world.specs.steps.Streaming.{HearsBytesNow};

/// The bus of a world says bytes from the opening on; it is left so by each event of the driver and of the controller, and by each command.
pub fn each_event_keeps_bytes()
    ensures opening { (s : Told) → IsByteScript s → IsByteBus (opening_world s).bus }
    ensures event { (fixed : Fixed) (w : World) (event : Kind) → IsByteBus w.bus → IsByteBus (next fixed w event).bus }
    ensures command { (w : World) (line : ℕ) (cmd : Ordered) → IsByteBus w.bus → IsByteBus (commanded w line cmd).bus }
    ensures run { (fixed : Fixed) (p : OrderedWorld) (k : ℕ) → IsByteBus p.world.bus → IsByteBus (ticks fixed p k).world.bus }
{}

/// Whatever is asked of such a bus now, each byte that is heard is below 256.
pub fn a_bus_of_bytes_is_heard_as_bytes()
    ensures { (fixed : Fixed) (w : World) → IsByteBus w.bus → HearsBytesNow fixed w }
{}

/// So it is at each moment of the run of a script of bytes, which each script is that a text spells.
pub fn each_moment_hears_bytes()
    ensures script { (s : Told) (k : ℕ) → IsByteScript s → HearsBytesNow (fixed_of s) (moment s k).world }
    ensures text { (text : List ℕ) (s : Told) (k : ℕ) → Spells text s → HearsBytesNow (fixed_of s) (moment s k).world }
{}
