//! Laws of what is kept of a controller, and of its asks. Each function does nothing; its contract is the law.

ghost use Rattle.hc_microframe.specs.State.{WordsKeepRegisters};
ghost use Rattle.hc_microframe.specs.Places.{PlaceIsKept};
ghost use Rattle.hc_microframe.specs.Stepping.{AsksOnce, RegistersAreKept};
ghost use Rattle.hc_microframe.specs.Several.{CallsAreRun, CallsAreRunOver, RunIsHeldUp};

/// The words of registers tell all that they hold: from the words the registers are got back.
pub fn words_keep_registers()
    ensures { WordsKeepRegisters }
{}

/// Where the ring's walk ended a microframe, for want of time or at the head of the ring, the address that is kept is that of its cursor.
pub fn place_is_kept()
    ensures { PlaceIsKept }
{}

/// A row of the controller's table asks at most once: with an answer at hand no event is held up.
pub fn asks_once()
    ensures { AsksOnce }
{}

/// The words that a call for one event leaves tell the registers after its row: the next call goes on with them.
pub fn registers_are_kept()
    ensures { RegistersAreKept }
{}

/// So many calls for one event, none of them the last of its microframe, are one call for so many.
pub fn calls_are_run()
    ensures { CallsAreRun }
{}

/// The same where the last of them ends the microframe.
pub fn calls_are_run_over()
    ensures { CallsAreRunOver }
{}

/// Where a call for several events wants an answer, a call for one event from there wants it.
pub fn run_is_held_up()
    ensures { RunIsHeldUp }
{}
