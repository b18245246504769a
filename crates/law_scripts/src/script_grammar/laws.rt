//! The laws of reading texts.
ghost use Rattle.std.specs.Prelude.{◌≡◌, ℕ, List};
ghost use Rattle.script_types.specs.declared.scripts.Script.{Script as Told};
ghost use Rattle.script_text.specs.Faults.{Spells};
ghost use Rattle.law_scripts.specs.script_grammar.Texts.{TextSpells};

/// A text is read as a script exactly where it spells it, line by line; and it spells one script at most.
pub fn texts_are_spelled()
    ensures reads { (text : List ℕ) (s : Told) → Spells text s → TextSpells text s }
    ensures spells { (text : List ℕ) (s : Told) → TextSpells text s → Spells text s }
    ensures one { (text : List ℕ) (s t : Told) → TextSpells text s → TextSpells text t → s ≡ t }
{}
