//! What is so of the memory of each script at each moment of its run, whatever endpoints it opens and cancels (EHCI 1.0, 2.3.1, 2.3.2, 3, 4.6, 4.8 and 4.15.2.4).
ghost use Rattle.law_world.specs.memory.InPlace.{MixedHasAllInPlace, TextsKeepAllInPlace};
ghost use Rattle.law_world.specs.memory.Reasons.{MixedHasReasons, TextsKeepReasons};
ghost use Rattle.law_world.specs.memory.PlacedLaws.{MixedIsAtWork, ScriptsStayMixed, TextsKeepMemory};
ghost use Rattle.law_world.specs.memory.Scripts.{TextsFit, TextsOpenFitting};

/// Each endpoint that the script of a text opens has numbers that fit their fields: its address, its own number and the address of its hub.
pub fn texts_fit()
    ensures { TextsFit }
{}

/// And it has the way of its kind.
pub fn texts_open_fitting()
    ensures { TextsOpenFitting }
{}

/// The world of each script of bytes that fits stays mixed, where the numbers of what it opens fit their fields, and each way is that of its kind.
pub fn scripts_stay_mixed()
    ensures { ScriptsStayMixed }
{}

/// In a mixed world the driver's runs, members and fixed words are in place; the words of memory stand for its frame list, and what is still
/// to be stored keeps to it.
pub fn a_mixed_world_has_all_in_place()
    ensures { MixedHasAllInPlace }
{}

/// So it is at each moment of each script that a text spells.
pub fn each_text_keeps_all_in_place()
    ensures { TextsKeepAllInPlace }
{}

/// In a mixed world the words of the ring and of the frame list stand for the driver's, queue heads have the words of their endpoints, and
/// the controller runs: its next event isn't Idle, and isn't the fault.
pub fn mixed_is_at_work()
    ensures { MixedIsAtWork }
{}

/// So it is at each moment of each script that a text spells; and Host System Error is 0 then, and no refusal of a word is counted.
pub fn texts_keep_memory()
    ensures { TextsKeepMemory }
{}

/// In a mixed world the asynchronous part of a microframe ends only where the head of the ring was read with Reclamation 0, or where the price of the next transaction passes the
/// time that is left (4.8.3, 4.9); and a queue head in hand whose qTD is active is passed only where it is halted, or where NakCnt is 0 and RL isn't (4.9, 4.10.3). So it is at each moment of each
/// script that a text spells.
pub fn parts_end_and_queue_heads_are_passed_for_a_reason()
    ensures world { MixedHasReasons }
    ensures texts { TextsKeepReasons }
{}
