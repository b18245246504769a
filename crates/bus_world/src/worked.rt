//! Worked rows of the definitions, which the check computes.
ghost use Rattle.std.specs.Prelude.{◌≡◌, [], ◌∷◌, true, false, ℕ};
ghost use Rattle.usb_base.specs.declared.endpoints.EpName.{EpName};
ghost use Rattle.script_types.specs.declared.scripts.Event.TheVariants.{D};
ghost use Rattle.script_types.specs.declared.scripts.Line.TheVariants.{Order, Micro, Command as Commanded};
ghost use Rattle.usb_base.specs.declared.commands.Cmd.TheVariants.{Cancel, Get};
ghost use Rattle.bus_world.specs.Rooms.{no_room, transfer_room, reserve_of};
ghost use Rattle.bus_world.specs.Orders.{Events, Microframes, Command, fewer, left_of, orders_of};
ghost use Rattle.bus_world.specs.Closing.{waiting_text};
ghost use Rattle.usb_base.specs.Rules.{first_rules};

/// A transfer of more than 20,480 bytes is refused, and its line tells none.
pub fn rooms()
    ensures longest { transfer_room 20480 ≡ record { endpoints = 0; transfers = 1; reports = 1; report_bytes = 20480; rules = first_rules } }
    ensures refused { transfer_room 20481 ≡ record { endpoints = 0; transfers = 1; reports = 1; report_bytes = 0; rules = first_rules } }
    ensures lines { (name : EpName) → reserve_of ((2, Order D 5) ∷ (3, Commanded (Get name 515 512)) ∷ (4, Commanded (Cancel name)) ∷ [])
        ≡ record { endpoints = 0; transfers = 1; reports = 2; report_bytes = 515; rules = first_rules } }
{}

/// What is left of the lines at first, and of microframes after a turn.
pub fn orders()
    ensures lines { (name : EpName) → orders_of ((2, Order D 5) ∷ (3, Micro 20) ∷ (4, Commanded (Cancel name)) ∷ []) ≡ Events D 5 ∷ Microframes 20 ∷ Command 4 (Cancel name) ∷ [] }
    ensures ended { fewer true 20 ≡ 19 }
    ensures goes_on { fewer false 20 ≡ 20 }
{}

/// An endpoint at which nothing waits has no line that says so.
pub fn waiting()
    ensures none { (name : EpName) → waiting_text name 0 ≡ [] }
{}
