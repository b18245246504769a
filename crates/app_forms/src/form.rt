ghost use Rattle.std.specs.Prelude.{◌≡◌, ℕ, ◌≤◌, map, string_bytes, IfSome, IfNone, IsTrue, ◌↔◌, codes};
ghost use Rattle.std.specs.Fmt.{decimal};
ghost use Rattle.app_forms.specs.Form.{AreWordsOf, AreNoForm};

use script_forms::number_of;

/// What the program is asked to do.
#[derive(Clone, Copy, Debug, PartialEq, Eq)]
pub enum Form {
    /// `run`: read a script, run it and print the report.
    Run,
    /// `image`: read a script, run it and write the image of memory afterwards.
    Image,
    /// `check`: read a script or an image, and say that it is one, or what is wrong with it first.
    Check,
    /// `dump`: read a memory image and print its lists of structures.
    Dump,
    /// `load <n>`: read nothing, run the load script of this number, 0 to 999,999, and print what its report counts.
    Load(u32),
}

/// The form that these words have; `None` exactly where they have none.
pub fn form_of(words: &[String]) -> Option<Form>
    ensures some { IfSome result (λ form. AreWordsOf (map string_bytes words.now) form) }
    ensures none { IfNone result (AreNoForm (map string_bytes words.now)) }
{
    match words {
        [word] if is_run(word) => Some(Form::Run),
        [word] if is_image(word) => Some(Form::Image),
        [word] if is_check(word) => Some(Form::Check),
        [word] if is_dump(word) => Some(Form::Dump),
        [word, number] if is_load(word) => load_form(number),
        _ => None,
    }
}

/// The form `load` of the number that a word spells; `None` for any other word, and above 999,999.
#[tactic(auto, using(script_forms::proofs::Decimals::spelled_by, script_forms::proofs::Decimals::spelled_number))]
fn load_form(word: &String) -> Option<Form>
    ensures some { IfSome result (λ form. (n : ℕ) × (form ≡ Form.Load n) × (n ≤ 999999) × (string_bytes word.now ≡ decimal n)) }
    ensures none { IfNone result ((n : ℕ) → n ≤ 999999 → string_bytes word.now ≡ decimal n → ⊥) }
{
    match number_of(word.as_bytes()) {
        Some(n) if n <= 999_999 => Some(Form::Load(n)),
        _ => None,
    }
}

fn is_run(word: &String) -> bool
    ensures { IsTrue result ↔ (string_bytes word.now ≡ codes "run") }
{
    word.as_bytes() == b"run".as_slice()
}

fn is_image(word: &String) -> bool
    ensures { IsTrue result ↔ (string_bytes word.now ≡ codes "image") }
{
    word.as_bytes() == b"image".as_slice()
}

fn is_check(word: &String) -> bool
    ensures { IsTrue result ↔ (string_bytes word.now ≡ codes "check") }
{
    word.as_bytes() == b"check".as_slice()
}

fn is_dump(word: &String) -> bool
    ensures { IsTrue result ↔ (string_bytes word.now ≡ codes "dump") }
{
    word.as_bytes() == b"dump".as_slice()
}

fn is_load(word: &String) -> bool
    ensures { IsTrue result ↔ (string_bytes word.now ≡ codes "load") }
{
    word.as_bytes() == b"load".as_slice()
}
