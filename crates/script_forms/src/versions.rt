//! What each version of the language has.
ghost use Rattle.std.specs.Prelude.{◌≡◌};
ghost use Rattle.std.specs.List.{find};
ghost use Rattle.std.specs.Str.{bytes_eq};
ghost use Rattle.script_forms.specs.Table.{first_text, second_words, is_built, first_in};

use crate::table::FirstWord;

/// Whether a version of the language has the lines of a first word: those of version 2 only where they are built.
fn is_built(version: u8, first: FirstWord) -> bool
    ensures { result ≡ is_built version first }
{
    match first {
        FirstWord::Frames => false,
        FirstWord::Stuff => version == 2,
        FirstWord::Epoch => version == 2,
        FirstWord::Clear => version == 2,
        FirstWord::Park => false,
        FirstWord::Root => false,
        FirstWord::Classic => false,
        FirstWord::Plug => false,
        FirstWord::Unplug => false,
        FirstWord::Reset => false,
        FirstWord::Give => false,
        FirstWord::Disk => false,
        FirstWord::Read => false,
        FirstWord::Write => false,
        FirstWord::Revive => false,
        _ => true,
    }
}

impl FirstWord {
    /// The first word with these bytes that version 2 alone has.
    pub(crate) fn second(word: &[u8]) -> Option<FirstWord>
        ensures { result ≡ find (λ f. bytes_eq word.now (first_text f)) second_words }
    {
        if word == b"frames".as_slice() {
            return Some(FirstWord::Frames);
        }
        if word == b"stuff".as_slice() {
            return Some(FirstWord::Stuff);
        }
        if word == b"epoch".as_slice() {
            return Some(FirstWord::Epoch);
        }
        if word == b"clear".as_slice() {
            return Some(FirstWord::Clear);
        }
        if word == b"park".as_slice() {
            return Some(FirstWord::Park);
        }
        if word == b"root".as_slice() {
            return Some(FirstWord::Root);
        }
        if word == b"classic".as_slice() {
            return Some(FirstWord::Classic);
        }
        if word == b"plug".as_slice() {
            return Some(FirstWord::Plug);
        }
        if word == b"unplug".as_slice() {
            return Some(FirstWord::Unplug);
        }
        if word == b"reset".as_slice() {
            return Some(FirstWord::Reset);
        }
        if word == b"give".as_slice() {
            return Some(FirstWord::Give);
        }
        if word == b"disk".as_slice() {
            return Some(FirstWord::Disk);
        }
        if word == b"read".as_slice() {
            return Some(FirstWord::Read);
        }
        if word == b"write".as_slice() {
            return Some(FirstWord::Write);
        }
        if word == b"revive".as_slice() {
            return Some(FirstWord::Revive);
        }
        None
    }

    /// The first word with these bytes, where the version of the language has it.
    pub fn of_version(version: u8, word: &[u8]) -> Option<FirstWord>
        ensures { result ≡ first_in version word.now }
    {
        let Some(first) = FirstWord::of(word) else {
            return None;
        };
        if !is_built(version, first) {
            return None;
        }
        Some(first)
    }
}
