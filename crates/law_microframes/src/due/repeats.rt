//! Complete-splits that are made again at once (EHCI 1.0, 4.12.2.4.2; USB 2.0, 8.5, 11.20 and 11.21).
ghost use Rattle.law_microframes.specs.due.repeats.RepeatLaws.{TextsRepeatAfterLosses, TextsSayWords, TextsAreHeard};

/// At each moment of the run of a script that a text spells, nothing was made again in the microframe where none of the transactions
/// of the walk of the frames lost a packet in it.
pub fn texts_repeat_after_losses()
    ensures { TextsRepeatAfterLosses }
{}

/// At each moment what each translator has made of an interrupt transaction is told as a word: data with a toggle or a handshake, or ERR.
pub fn texts_say_words()
    ensures { TextsSayWords }
{}

/// At each moment each endpoint of the driver below a hub, but a control endpoint, stands on the bus, and its hub has a translator
/// for its port.
pub fn texts_are_heard()
    ensures { TextsAreHeard }
{}
