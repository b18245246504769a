//! Worked rows: beside a keyboard behind a hub, which is asked by split transactions, the endpoints of a device at high speed have their
//! sides on the bus.
ghost use Rattle.usb_base.specs.declared.packets.Speed.TheVariants.{High};
ghost use Rattle.usb_base.specs.declared.packets.Way.TheVariants as ways;
ghost use Rattle.law_opened.specs.Declared.{HasItsStream};
ghost use Rattle.law_opened.specs.Opened.{IsOpened, OpensOnce, OpensFit};
ghost use Rattle.law_opened.specs.Samples.{key, sink, board, beside_split, opened_twice};

/// The script opens its three endpoints; the two of the device at high speed have their sender and their taker, and the keyboard has none.
pub fn the_sides_beside_a_keyboard()
    ensures opened { IsOpened beside_split board }
    ensures sender { HasItsStream beside_split key ways.In }
    ensures taker { HasItsStream beside_split sink ways.Out }
    ensures behind { HasItsStream beside_split board ways.In }
{}

/// Nor would it be so of a keyboard at high speed with this name, which the script doesn't open.
pub fn a_keyboard_has_no_side_at_high_speed()
    ensures unopened { IsOpened beside_split (record board { speed = High }) → ⊥ }
    ensures none { HasItsStream beside_split (record board { speed = High }) ways.In → ⊥ }
{}

/// Each of its names is that of one endpoint; and it isn't so where two lines open one name, with packets of two bytes and of four.
pub fn the_names_beside_a_keyboard()
    ensures once { OpensOnce beside_split }
    ensures fits { OpensFit beside_split }
    ensures twice { OpensOnce opened_twice → ⊥ }
{}
