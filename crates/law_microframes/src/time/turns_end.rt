//! Each microframe of a run ends (EHCI 1.0, 4.4, 4.6 and 4.8.3): no run of a script that a text spells stops in one that goes on.
ghost use Rattle.law_microframes.specs.time.Ahead.{EachRowLowers, NeverIdle};
ghost use Rattle.law_microframes.specs.time.Ends.{ScriptsKeepTime, TextsEndMicroframes, TextsCarryOutAll};

/// Each event of the controller that doesn't end the microframe leaves fewer events ahead, whichever row it is; and the controller runs at each moment.
pub fn each_event_leaves_fewer_ahead()
    ensures lowers { EachRowLowers }
    ensures busy { NeverIdle }
{}

/// No walk has more time left than a microframe has, at each moment of a run.
pub fn scripts_keep_time()
    ensures { ScriptsKeepTime }
{}

/// So each microframe ends after no more turns of the controller and the driver than were counted before it.
pub fn texts_end_microframes()
    ensures { TextsEndMicroframes }
{}

/// So each run carries out all the lines of its script: none stops in a microframe that goes on.
pub fn texts_carry_out_all()
    ensures { TextsCarryOutAll }
{}
