//! The laws.
ghost use Rattle.std.specs.Prelude.{ℕ, List};
ghost use Rattle.script_types.specs.declared.scripts.Script.{Script as Told};
ghost use Rattle.script_text.specs.Faults.{Spells};
ghost use Rattle.law_scripts.specs.Numbers.{NumbersOpens};

/// Each endpoint that the script of a text opens has an address and a number that fit their fields.
pub fn a_text_numbers_what_it_opens()
    ensures { (text : List ℕ) (s : Told) → Spells text s → NumbersOpens s }
{}
