//! The laws.
ghost use Rattle.std.specs.Prelude.{ℕ, List};
ghost use Rattle.script_types.specs.declared.scripts.Script.{Script as Told};
ghost use Rattle.script_text.specs.Faults.{Spells};
ghost use Rattle.law_scripts.specs.byte_answers.Bytes.{IsByteScript};

/// What a text spells is bytes.
pub fn a_text_spells_bytes()
    ensures { (text : List ℕ) (s : Told) → Spells text s → IsByteScript s }
{}
