//! What the translators of a bus tell of interrupt transactions (USB 2.0, 8.5.4, 11.18, 11.20 and 11.21).
ghost use Rattle.law_microframes.specs.due.repeats.WordLaws.{BeginsKeepWords, AsksKeepWords, CompletesAreAnswered, BeginsKeepTranslators, AsksKeepTranslators};

/// A microframe that begins leaves the translators so, whatever their devices answer, ..
pub fn begins_keep_words()
    ensures { BeginsKeepWords }
{}

/// .. and so does each transaction of the host, with a device, a hub or a translator.
pub fn asks_keep_words()
    ensures { AsksKeepWords }
{}

/// So a complete-split that a translator can hear is answered by NYET, ERR or what the device said, unless a packet is lost.
pub fn completes_are_answered()
    ensures { CompletesAreAnswered }
{}

/// A hub keeps the translators that it has.
pub fn hubs_keep_translators()
    ensures begins { BeginsKeepTranslators }
    ensures asks { AsksKeepTranslators }
{}
