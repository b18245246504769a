//! When a complete-split of an interrupt endpoint is made again at once (EHCI 1.0, 4.12.2.4.2; USB 2.0, 11.20 and 11.21).
ghost use Rattle.law_microframes.specs.time.Repeats.{TranslatorsSayWords, WordsEndVisits, SilenceAsksAgain};

/// What a translator tells of an interrupt transaction is NYET, ERR, or what the device said to it: data with a toggle, or a handshake.
pub fn translators_say_words()
    ensures { TranslatorsSayWords }
{}

/// After such a word the host doesn't make the complete-split again at once, whatever its toggle, its errors and its limit are; after silence
/// it does, while an error is left. So where each word of a translator arrives, nothing is made again.
pub fn complete_splits_are_made_again_after_silence()
    ensures words { WordsEndVisits }
    ensures silence { SilenceAsksAgain }
{}
