//! Laws of the definitions.
ghost use Rattle.std.specs.Prelude.{◌≡◌, ℕ, None};
ghost use Rattle.script_text.specs.Faults.{first_fault};
ghost use Rattle.script_load.specs.Load.{load_text};

/// The text of each number is a script: no line of it has a fault.
pub fn load_texts_have_no_fault()
    ensures { (n : ℕ) → first_fault (load_text n) ≡ None }
{}
