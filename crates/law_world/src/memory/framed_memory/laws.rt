ghost use Rattle.law_world.specs.memory.framed_memory.Framed.{ControllerKeepsFramed, NewIsFramed};

use usb_base::Wire;

/// A driver that was just built and a new controller share their memory so (4.1).
pub fn new_is_framed()
    ensures { NewIsFramed }
{}

/// Each event of the controller keeps all of it, with the structures and what is in hand that there are then.
pub fn controller_keeps_framed<W: Wire>()
    ensures { ControllerKeepsFramed W.begins W.transacts }
{}
