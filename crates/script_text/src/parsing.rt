//! Reading a whole text.
ghost use Rattle.std.specs.Prelude.{◌≡◌, ℕ, ◌≤◌, ◌<◌, ◌+◌, ◌==◌, not, [], ◌∷◌, IfOk, IfErr, Ok, Result, length, List};
ghost use Rattle.std.specs.List.{list_all, list_any};
ghost use Rattle.script_types.specs.declared.scripts.Script.{Script as Told};
ghost use Rattle.script_forms.specs.declared.causes.TextWhy.{TextWhy as Why};
ghost use Rattle.script_forms.specs.Table.{first_in};
ghost use Rattle.script_forms.specs.Fitting.{form_of};
ghost use Rattle.script_world.specs.Draft.{empty, script_of};
ghost use Rattle.script_text.specs.Reading.{lines_in, words_in, says, may_stand, no_bytes, answer, said, form_read, first_read, words_read, version_read, line_read, lines_read, outcome, script_after, text_read, script_read};
ghost use Rattle.script_text.specs.Faults.{Spells, IsFault, IsRight};

use crate::lines::{cut, says, words_in};
use script_forms::{FirstWord, Statement, TextWhy, Word, form_of, statement};
use script_types::Script;
use script_world::Draft;
use std::alloc::Global;
use usb_base::Memory;

/// Why a text gives no script.
#[derive(Debug, Drop)]
pub enum TextError {
    /// The text has a fault. `line` is the number of the first faulty line, from 1 on, or 0 for the text as a whole, and
    /// `why` its first cause.
    Fault { line: u32, why: TextWhy },
    /// There is too little memory for the script.
    Memory(Memory),
}

/// Whether a line has a word of no bytes: a space too many.
fn has_gap(words: &[Word]) -> bool
    ensures { result ≡ list_any no_bytes words.now }
{
    words.iter().any(|word| word.bytes().is_empty())
}

/// Whether a line has bytes that it may have alone.
fn has_plain_bytes(line: &[u8]) -> bool
    ensures { result ≡ list_all may_stand line.now }
{
    line.iter().all(|b| 0x20 <= *b && *b <= 0x7e)
}

/// Reads what a line says.
#[tactic(auto, using(crate::proofs::Answers::said_is))]
fn read_statement(
    alloc: Global,
    draft: &mut Draft,
    n: u32,
    statement: Statement,
) -> Result<Option<TextWhy>, Memory>
    ensures { IfOk result (λ why. said draft.old n statement ≡ answer why draft.new) }
{
    draft.take(alloc, n, statement)
}

/// Reads the words behind a first word.
fn read_form(
    alloc: Global,
    draft: &mut Draft,
    n: u32,
    first: FirstWord,
    words: &[Word],
) -> Result<Option<TextWhy>, Memory>
    ensures { IfOk result (λ why. form_read draft.old n words.now (form_of draft.old.version first words.now) ≡ answer why draft.new) }
{
    match form_of(draft.version(), first, words) {
        Err(why) => Ok(Some(why)),
        Ok(form) => match statement(alloc, form, words) {
            Ok(statement) => read_statement(alloc, draft, n, statement),
            Err(memory) => Err(memory),
        },
    }
}

/// Reads the words of a line, the first apart from the others.
fn read_first(
    alloc: Global,
    draft: &mut Draft,
    n: u32,
    first: &[u8],
    words: &[Word],
) -> Result<Option<TextWhy>, Memory>
    ensures { IfOk result (λ why. first_read draft.old n words.now (first_in draft.old.version first.now) ≡ answer why draft.new) }
{
    let Some(first) = FirstWord::of_version(draft.version(), first) else {
        return Ok(Some(TextWhy::Word));
    };
    if draft.is_late(first) {
        return Ok(Some(TextWhy::Late));
    }
    read_form(alloc, draft, n, first, words)
}

/// Reads the words of a line.
fn read_words(
    alloc: Global,
    draft: &mut Draft,
    n: u32,
    words: &[Word],
) -> Result<Option<TextWhy>, Memory>
    ensures { IfOk result (λ why. words_read draft.old n words.now ≡ answer why draft.new) }
{
    let Some((first, more)) = words.split_first() else {
        return Ok(Some(TextWhy::Word));
    };
    if has_gap(words) {
        return Ok(Some(TextWhy::Word));
    }
    read_first(alloc, draft, n, first.bytes(), more)
}

/// Reads the first line.
fn read_version(draft: &mut Draft, line: &[u8]) -> Option<TextWhy>
    ensures { version_read draft.old line.now ≡ answer result draft.new }
{
    if line == b"ehci 1".as_slice() {
        return None;
    }
    if line == b"ehci 2".as_slice() {
        draft.set_version(2);
        return None;
    }
    Some(TextWhy::Version)
}

/// Reads line n.
fn read_line(
    alloc: Global,
    draft: &mut Draft,
    n: u32,
    line: &[u8],
) -> Result<Option<TextWhy>, Memory>
    ensures { IfOk result (λ why. line_read draft.old n line.now ≡ answer why draft.new) }
{
    if line.len() > 65_535 {
        return Ok(Some(TextWhy::Long));
    }
    if !has_plain_bytes(line) {
        return Ok(Some(TextWhy::Byte));
    }
    if n == 1 {
        return Ok(read_version(draft, line));
    }
    if !says(line) {
        return Ok(None);
    }
    let words = words_in(alloc, line)?;
    read_words(alloc, draft, n, words.as_slice())
}

/// Reads the lines of a text: the number of the first faulty one and its cause, if any is faulty.
#[tactic(auto, using(crate::proofs::Answers::goes_on, crate::proofs::Answers::ends_in, crate::proofs::Answers::all_read))]
fn read_lines(
    alloc: Global,
    draft: &mut Draft,
    text: &[u8],
) -> Result<Option<(u32, TextWhy)>, Memory>
    requires { length text.now ≤ 1048576 }
    ensures { IfOk result (λ fault. lines_read draft.old 1 (lines_in text.now) ≡ outcome fault draft.new) }
{
    let mut rest = text;
    let mut n = 1;
    'lines: loop {
        let (line, behind) = cut(rest, b'\n');
        match read_line(alloc, draft, n, line) {
            Err(memory) => return Err(memory),
            Ok(Some(why)) => return Ok(Some((n, why))),
            Ok(None) => {}
        }
        match behind {
            None => return Ok(None),
            Some(behind) => {
                rest = behind;
                n += 1;
            }
        }
    }
}

/// The script of what was read.
fn finished(alloc: Global, draft: Draft) -> Result<Script, TextError>
    ensures script { IfOk result (λ s. s ≡ script_of draft) }
    ensures memory { (r : Result Told (ℕ × Why)) → IfErr result (λ e. IsFault r e) }
{
    match draft.into_script(alloc) {
        Ok(script) => Ok(script),
        Err(memory) => Err(TextError::Memory(memory)),
    }
}

/// The script of a text that isn't too long, or its first fault.
fn read_text(alloc: Global, text: &[u8]) -> Result<Script, TextError>
    requires { length text.now ≤ 1048576 }
    ensures script { IfOk result (λ s. script_after (text_read text.now) ≡ Ok s) }
    ensures refused { IfErr result (λ e. IsFault (script_after (text_read text.now)) e) }
{
    let mut draft = Draft::new(alloc);
    if text.is_empty() {
        return finished(alloc, draft);
    }
    match read_lines(alloc, &mut draft, text) {
        Ok(None) => finished(alloc, draft),
        Ok(Some((line, why))) => Err(TextError::Fault { line, why }),
        Err(memory) => Err(TextError::Memory(memory)),
    }
}

/// The script that a text spells, or its first fault: the number of the first faulty line and the first cause that the
/// line has. All memory that reading needs is taken here.
#[tactic(auto, unfolding(crate::specs::Reading::script_read))]
pub fn parse(alloc: Global, text: &[u8]) -> Result<Script, TextError>
    ensures spelled { IfOk result (λ s. Spells text.now s) }
    ensures refused { IfErr result (λ e. IsRight text.now e) }
{
    if text.len() > 1_048_576 {
        return Err(TextError::Fault {
            line: 0,
            why: TextWhy::Long,
        });
    }
    read_text(alloc, text)
}
