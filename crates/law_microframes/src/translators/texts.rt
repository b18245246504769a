//! The same of each script that a text spells: each start-split follows its plan.
ghost use Rattle.law_microframes.specs.translators.Laws.{PartsComeInTurn, TextsKeepTranslators, TextsHaveFewStuffedBits, InterruptsFollow, SitdsFollowToo};
ghost use Rattle.law_microframes.specs.translators.Fresh.{StartsFindNoneWorked};
ghost use Rattle.law_microframes.specs.translators.Rooms.{TextsHaveRoom};
ghost use Rattle.law_microframes.specs.translators.Told.{LastCompletesAreLate, TextsTellByLast};

/// Each start-split of a queue head is one that the plan of its translator calls for, and its endpoint isn't given back in the frame.
pub fn interrupts_follow()
    ensures { InterruptsFollow }
{}

/// So it is of a siTD: of an IN, and of the first part of an OUT; of a later part where the entry of its key lacks its last part, and had
/// none in this microframe.
pub fn sitds_follow()
    ensures { SitdsFollowToo }
{}

/// No part of an isochronous OUT comes behind the last one, nor do two come in a microframe.
pub fn parts_come_in_turn()
    ensures { PartsComeInTurn }
{}

/// No endpoint below a hub has more than six stuffed bits in 36.
pub fn texts_have_few_stuffed_bits()
    ensures { TextsHaveFewStuffedBits }
{}

/// So the translators keep up, with stuffed bits one microframe later.
pub fn texts_keep_up()
    ensures { TextsKeepTranslators }
{}

/// Of an interrupt endpoint, and of an isochronous IN, two microframes lie between the last in which something is laid and the last
/// complete-split; so at the begin of that one the result is there, and the last bytes.
pub fn answers_are_there_for_the_last_complete()
    ensures late { LastCompletesAreLate }
    ensures told { TextsTellByLast }
{}

/// One start-split of an interrupt endpoint comes in a frame: it finds no entry of its key of which something is worked.
pub fn starts_find_none_worked()
    ensures { StartsFindNoneWorked }
{}

/// No key has two entries in a pipeline, and there are fewer than 256: so no start-split that makes an entry is forgotten.
pub fn pipelines_have_room()
    ensures { TextsHaveRoom }
{}
