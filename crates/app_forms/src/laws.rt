//! Laws of the definitions.
ghost use Rattle.std.specs.Prelude.{◌≡◌, ℕ, List};
ghost use Rattle.script_types.specs.declared.scripts.Script.{Script};
ghost use Rattle.script_text.specs.Faults.{Spells};
ghost use Rattle.bus_world.specs.Plain.{IsPlain};
ghost use Rattle.app_forms.specs.Form.{AreWordsOf};
ghost use Rattle.app_forms.specs.declared.form.Form.{Form as Asked};

/// Words have one form at most.
pub fn one_form()
    ensures { (words : List (List ℕ)) (a b : Asked) → AreWordsOf words a → AreWordsOf words b → a ≡ b }
{}

/// A script of version 1 clears no halt: its grammar has no line for it.
pub fn first_scripts_are_plain()
    ensures { (text : List ℕ) (s : Script) → Spells text s → s.version ≡ 1 → IsPlain s }
{}
