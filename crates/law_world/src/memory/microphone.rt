//! Worked rows of a script with a microphone, which the check computes (EHCI 1.0, 3.3, 4.6 and 4.7).
ghost use Rattle.std.specs.Prelude.{◌≡◌, ℕ, suc, Some, None};
ghost use Rattle.word_mem.specs.Memory.{word_at};
ghost use Rattle.drv_table.specs.declared.content.Command.TheVariants as unfinished;
ghost use Rattle.drv_table.specs.declared.rows.DriverRow.TheVariants as rows;
ghost use Rattle.script_fits.specs.Fits.{IsFit};
ghost use Rattle.law_scripts.specs.byte_answers.Bytes.{IsByteScript};
ghost use Rattle.bus_world.specs.Budgets.{moment};
ghost use Rattle.law_world.specs.memory.MicrophoneSamples.{heard_at, heard_row, one_microphone};
ghost use Rattle.claims_world.specs.Memory.{KeepsMemory};
ghost use Rattle.law_world.specs.memory.PlacedLaws.{FitsMixed};

/// A script that opens a high-speed microphone and asks for a descriptor of it meets the premises: it fits, says bytes, and the numbers of what it opens fit their fields, and
/// its way its kind.
pub fn a_script_with_a_microphone()
    ensures fits { IsFit one_microphone }
    ensures bytes { IsByteScript one_microphone }
    ensures mixed { FitsMixed one_microphone }
{}

/// So its memory is kept at each moment.
pub fn its_memory_is_kept()
    ensures { KeepsMemory one_microphone }
{}

/// Its open is accepted, and what follows is the run of what is left.
pub fn its_moments()
    ensures { (k : ℕ) → (moment one_microphone (suc k)).world ≡ heard_at k }
{}

/// The descriptor gets frame 2, is lent in block 130, and is linked by one store: element 2 of the frame list leads to it, and it ends its frame.
pub fn a_descriptor_is_linked()
    ensures accepted { (heard_at 1).driver.command ≡ Some (unfinished.Iso 0 0 1) }
    ensures gets_a_frame { heard_row 1 ≡ rows.Frames }
    ensures to_lend { heard_row 2 ≡ rows.LendDescriptors }
    ensures to_link { heard_row 3 ≡ rows.Store 0 8 4160 }
    ensures linked { (heard_at 4).driver.command ≡ None }
    ensures element { word_at (heard_at 4).memory 8 ≡ 4160 }
    ensures ends { word_at (heard_at 4).memory 4160 ≡ 1 }
{}
