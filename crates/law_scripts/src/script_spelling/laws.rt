//! The laws of reading words.
ghost use Rattle.std.specs.Prelude.{◌≡◌, ℕ, List, Some, Ok};
ghost use Rattle.script_forms.specs.declared.table.FirstWord.{FirstWord as First};
ghost use Rattle.script_forms.specs.declared.table.Form.{Form as Shape};
ghost use Rattle.script_forms.specs.Syntax.{hex_of, hex_word};
ghost use Rattle.script_forms.specs.Fitting.{form_of};
ghost use Rattle.law_scripts.specs.script_spelling.Spelling.{AreBytes, IsForm};

/// Words are read as a form exactly where each stands in its slot; so no words are those of two forms.
pub fn forms_are_spelled()
    ensures reads { (version : ℕ) (first : First) (ws : List (List ℕ)) (f : Shape)
        → form_of version first ws ≡ Ok f → IsForm version first f ws }
    ensures spells { (version : ℕ) (first : First) (ws : List (List ℕ)) (f : Shape)
        → IsForm version first f ws → form_of version first ws ≡ Ok f }
    ensures one { (version : ℕ) (first : First) (ws : List (List ℕ)) (f g : Shape)
        → IsForm version first f ws → IsForm version first g ws → f ≡ g }
{}

/// A word is read as bytes exactly where they spell it.
pub fn bytes_are_spelled()
    ensures reads { (w bytes : List ℕ) → hex_of w ≡ Some bytes → AreBytes bytes × (w ≡ hex_word bytes) }
    ensures spells { (bytes : List ℕ) → AreBytes bytes → hex_of (hex_word bytes) ≡ Some bytes }
{}
