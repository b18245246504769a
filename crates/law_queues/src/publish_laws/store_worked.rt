//! Worked rows: a transfer of one qTD in block 141 that is being published.
ghost use Rattle.std.specs.Prelude.{◌≡◌, ℕ, ◌∷◌, [], Some, None, false};
ghost use Rattle.drv_table.specs.declared.content.Command.TheVariants as unfinished;
ghost use Rattle.law_driver.specs.chained_transfers.Out.{out_of};
ghost use Rattle.law_driver.specs.chained_transfers.Worked.{notes, ended_early};

/// While it is published its first qTD isn't out; once the command is finished it is.
pub fn out_rows()
    ensures before { out_of notes 0 (Some (unfinished.Publish 141 [])) 3 (ended_early ∷ record ended_early { first = 141; place = 141; reported = false } ∷ []) ≡ 4480 ∷ 4544 ∷ [] }
    ensures after { out_of notes 0 None 0 (ended_early ∷ record ended_early { first = 141; place = 141; reported = false } ∷ []) ≡ 4480 ∷ 4512 ∷ 4544 ∷ [] }
{}
