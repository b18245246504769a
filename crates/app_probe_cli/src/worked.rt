//! Worked values of the definitions, which the check computes.
ghost use Rattle.std.specs.Prelude.{◌≡◌, [], ◌∷◌, ◌++◌, Some, None, true, false, codes};
ghost use Rattle.app_probe_cli.specs.Output.{events_of, probed_line};

/// The number of events is one decimal number of 32 bits, and the only word.
pub fn numbers()
    ensures none { events_of (codes "0" ∷ []) ≡ Some 0 }
    ensures some { events_of (codes "100" ∷ []) ≡ Some 100 }
    ensures last { events_of (codes "4294967295" ∷ []) ≡ Some 4294967295 }
    ensures large { events_of (codes "4294967296" ∷ []) ≡ None }
    ensures leading_zero { events_of (codes "01" ∷ []) ≡ None }
    ensures sign { events_of (codes "-1" ∷ []) ≡ None }
    ensures no_word { events_of [] ≡ None }
    ensures words { events_of (codes "1" ∷ codes "2" ∷ []) ≡ None }
{}

/// The line of a run, and that of one that ends in a host system error.
pub fn lines()
    ensures ran { probed_line (record { steps = 100; foreign = 0; fault = false }) ≡ codes "steps 100 foreign 0 fault no" ++ 10 ∷ [] }
    ensures failed { probed_line (record { steps = 4; foreign = 1; fault = true }) ≡ codes "steps 4 foreign 1 fault yes" ++ 10 ∷ [] }
{}
