//! Worked values of the numbers of a state between two events, which the check computes.
ghost use Rattle.std.specs.Prelude.{◌≡◌, Some, None};
ghost use Rattle.usb_base.specs.declared.endpoints.EndCause.TheVariants.{Babble};
ghost use Rattle.link_words.specs.declared.kinds.Link.TheVariants.{Qh, End};
ghost use Rattle.toggle_error.specs.declared.host.Outcome.TheVariants.{Moved, Halt};
ghost use Rattle.async_walk.specs.declared.state.Cursor.TheVariants.{Start, At};
ghost use Rattle.async_walk.specs.Walk.{new_walk};
ghost use Rattle.hc_core.specs.declared.controller.MicroframePart.TheVariants.{Periodic, Asynchronous};
ghost use Rattle.hc_core.specs.Controller.{new_control};
ghost use Rattle.hc_microframe.specs.Numbers.{outcome_named, cursor_in, of_walks};
ghost use Rattle.hc_microframe.specs.Stepping.{control_after_write};

/// What a transaction came to; a number that names nothing; a cursor at 1040h, at a list's end, and at the start of the ring.
#[tactic(auto, unfolding(link_words::specs::Links::link_read))]
pub fn numbers()
    ensures moved { outcome_named 1 64 ≡ Some (Moved 64) }
    ensures halted { outcome_named 8 0 ≡ Some (Halt Babble) }
    ensures unnamed { outcome_named 11 64 ≡ None }
    ensures cursor { cursor_in 1 0x1042 ≡ At (Qh 0x1040) }
    ensures list_end { cursor_in 1 1 ≡ At End }
    ensures start { cursor_in 0 0x1042 ≡ Start }
{}

/// A walk that no numbers say is no controller's.
pub fn no_controller()
    ensures frame { of_walks Periodic None (Some new_walk) ≡ None }
    ensures ring { of_walks Periodic (Some new_control.frame) None ≡ None }
    ensures both { of_walks new_control.part (Some new_control.frame) (Some new_walk) ≡ Some new_control }
{}

/// A controller in the middle of its asynchronous part, after a write of ASYNCLISTADDR, a reset, and another write.
pub fn written()
    ensures ring { let c = record new_control { part = Asynchronous } in
        control_after_write 0x18 0x1000 (record c { walk = record new_walk { left = 5 } }) ≡ c }
    ensures reset { control_after_write 0x00 0x00080002 (record new_control { part = Asynchronous }) ≡ new_control }
    ensures other { let c = record new_control { part = Asynchronous } in control_after_write 0x00 0x00080031 c ≡ c }
{}
