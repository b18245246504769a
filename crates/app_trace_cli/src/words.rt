//! The words of a command line.
use app_trace::{Choice, Form};
use usb_base::{DevAddr, EpName, EpNum, Way};

/// What a word is for, by the word before it.
#[derive(Clone, Copy)]
enum WordPlace {
    /// An option.
    Option,
    /// The endpoint behind `--endpoint`.
    Endpoint,
    /// The microframe behind `--from`.
    From,
    /// The microframe behind `--to`.
    To,
}

/// A number in decimal digits, without leading zeros, at most 4,294,967,295.
fn number(digits: &[u8]) -> Option<u32> {
    if digits.is_empty() || digits.len() > 1 && digits[0] == b'0' {
        return None;
    }
    let mut n = 0u32;
    for digit in digits {
        if *digit < b'0' || *digit > b'9' {
            return None;
        }
        n = n.checked_mul(10)?.checked_add((*digit - b'0') as u32)?;
    }
    Some(n)
}

fn small(digits: &[u8]) -> Option<u8> {
    let n = number(digits)?;
    if n <= 127 { Some(n as u8) } else { None }
}

fn way(word: &[u8]) -> Option<Way> {
    if word == b"in".as_slice() {
        Some(Way::In)
    } else if word == b"out".as_slice() {
        Some(Way::Out)
    } else if word == b"ctl".as_slice() {
        Some(Way::Ctl)
    } else {
        None
    }
}

/// An endpoint, as `3.1.in`.
fn endpoint(word: &[u8]) -> Option<EpName> {
    let first = word.iter().position(|byte| *byte == b'.')?;
    let rest = word.get(first.checked_add(1)?..)?;
    let second = rest.iter().position(|byte| *byte == b'.')?;
    let last = rest.get(second.checked_add(1)?..)?;
    Some(EpName {
        addr: DevAddr::new(small(word.get(..first)?)?)?,
        num: EpNum::new(small(rest.get(..second)?)?)?,
        way: way(last)?,
    })
}

/// The choice, and what the next word is for, behind this word.
fn taken(choice: &mut Choice, place: WordPlace, word: &[u8]) -> Option<WordPlace> {
    match place {
        WordPlace::Option => return option(choice, word),
        WordPlace::Endpoint => choice.endpoint = Some(endpoint(word)?),
        WordPlace::From => choice.from = number(word)?,
        WordPlace::To => choice.to = number(word)?,
    }
    Some(WordPlace::Option)
}

fn option(choice: &mut Choice, word: &[u8]) -> Option<WordPlace> {
    if word == b"--endpoint".as_slice() {
        Some(WordPlace::Endpoint)
    } else if word == b"--from".as_slice() {
        Some(WordPlace::From)
    } else if word == b"--to".as_slice() {
        Some(WordPlace::To)
    } else if word == b"--quiet".as_slice() {
        choice.quiet = true;
        Some(WordPlace::Option)
    } else if word == b"--pcap".as_slice() {
        choice.form = Form::Capture;
        Some(WordPlace::Option)
    } else if word == b"--schedule".as_slice() {
        choice.form = Form::Schedule;
        Some(WordPlace::Option)
    } else if word == b"--progress".as_slice() {
        choice.progress = true;
        Some(WordPlace::Option)
    } else if word == b"--wait".as_slice() {
        choice.wait = true;
        Some(WordPlace::Option)
    } else {
        None
    }
}

/// The choice that these words make; None where one of them is no option, or no value of the option before it. Where an option stands twice,
/// its last value counts.
pub fn choice_of(words: &[String]) -> Option<Choice> {
    let mut choice = Choice {
        form: Form::Lines,
        endpoint: None,
        from: 0,
        to: u32::MAX,
        quiet: false,
        progress: false,
        wait: false,
    };
    let mut place = WordPlace::Option;
    for word in words {
        place = taken(&mut choice, place, word.as_bytes())?;
    }
    match place {
        WordPlace::Option => Some(choice),
        WordPlace::Endpoint | WordPlace::From | WordPlace::To => None,
    }
}
