//! Laws of the registers: worked rows of the table, which compute, and what clears the doorbell. Each function does nothing; its contract is the law.

ghost use Rattle.std.specs.Prelude.{◌≡◌, ℕ, Bool, true, false, Some, None, [], ◌∷◌, ◌⊎◌, ◌&&◌, not};
ghost use Rattle.std.specs.List.{list_all};
ghost use Rattle.op_registers.specs.RegisterFile.{RegisterFile, reset_file, reset_of};
ghost use Rattle.op_registers.specs.Table.{registers, rows, shows_resets, word_of, word_at, after_write, after_writes};
ghost use Rattle.op_registers.specs.Events.{has, after_raise, after_begin, after_advance, after_reclamation, after_fault};

use crate::register::Register;
use crate::status::Status;

/// What is read after a reset. The column of the table that says so and `reset_file` agree in each row.
pub fn reset_rows()
    ensures table { list_all (λ register. shows_resets (rows register)) registers ≡ true }
    ensures command { word_at reset_file 0x00 ≡ Some 0x00080000 }
    ensures status { word_at reset_file 0x04 ≡ Some 0x00001000 }
    ensures interrupt_enable { word_at reset_file 0x08 ≡ Some 0 }
    ensures frame_index { word_at reset_file 0x0c ≡ Some 0 }
    ensures segment { word_at reset_file 0x10 ≡ Some 0 }
    ensures list_base { word_at reset_file 0x14 ≡ Some 0 }
    ensures async_address { word_at reset_file 0x18 ≡ Some 0 }
    ensures configured { word_at reset_file 0x40 ≡ Some 0 }
    ensures port { word_at reset_file 0x44 ≡ Some 0x00001005 }
    ensures between { word_at reset_file 0x1c ≡ None }
    ensures unaligned { word_at reset_file 0x01 ≡ None }
    ensures past { word_at reset_file 0x48 ≡ None }
{}

/// What is read after the first writes of a driver: it runs, and so do both schedules.
pub fn opening_rows()
    ensures { let opened = after_writes reset_file ((0x08, 0) ∷ (0x14, 0) ∷ (0x18, 0x1000) ∷ (0x40, 1) ∷ (0x00, 0x00080031) ∷ []) in
        (word_at opened 0x00 ≡ Some 0x00080031) × (word_at opened 0x04 ≡ Some 0x0000c000) × (word_at opened 0x18 ≡ Some 0x00001000) × (word_at opened 0x40 ≡ Some 1) }
{}

/// Words with every bit set: what is kept are the named bits that the driver writes.
pub fn full_words()
    ensures command { word_at (after_write reset_file 0x00 0xfffffffd) 0x00 ≡ Some 0x00ff007d }
    ensures interrupt_enable { word_at (after_write reset_file 0x08 0xffffffff) 0x08 ≡ Some 0x3f }
    ensures frame_index { word_at (after_write reset_file 0x0c 0xffffffff) 0x0c ≡ Some 0x3fff }
    ensures list_base { word_at (after_write reset_file 0x14 0xffffffff) 0x14 ≡ Some 0xfffff000 }
    ensures async_address { word_at (after_write reset_file 0x18 0xffffffff) 0x18 ≡ Some 0xffffffe0 }
    ensures configured { word_at (after_write reset_file 0x40 0xffffffff) 0x40 ≡ Some 1 }
    ensures segment { after_write reset_file 0x10 0xffffffff ≡ reset_file }
    ensures port { after_write reset_file 0x44 0xffffffff ≡ reset_file }
    ensures outside { after_write reset_file 0x1c 0xffffffff ≡ reset_file }
{}

/// The six bits of USBSTS that stand until they are cleared: a 0 leaves them, a 1 clears them.
pub fn status_rows()
    ensures { let raised = after_raise reset_file Status.INTERRUPTS in
        (word_at raised 0x04 ≡ Some 0x103f)
        × (word_at (after_write raised 0x04 0x00) 0x04 ≡ Some 0x103f)
        × (word_at (after_write raised 0x04 0x15) 0x04 ≡ Some 0x102a)
        × (word_at (after_write raised 0x04 0xffffffff) 0x04 ≡ Some 0x1000) }
{}

/// FRINDEX: written while halted and not while running, and the two places where the frame list rolls over.
pub fn frame_index_rows()
    ensures halted { word_at (after_write reset_file 0x0c 0x3fff) 0x0c ≡ Some 0x3fff }
    ensures running { let opened = after_write reset_file 0x00 0x00080031 in after_write opened 0x0c 0x3fff ≡ opened }
    ensures steps { let begun = after_begin reset_file in
        (word_at begun 0x0c ≡ Some 1) × (begun.rollover ≡ false) }
    ensures half { let begun = after_begin (after_write reset_file 0x0c 0x1fff) in
        (word_at begun 0x0c ≡ Some 0x2000) × (begun.rollover ≡ true) }
    ensures whole { let begun = after_begin (after_write reset_file 0x0c 0x3fff) in
        (word_at begun 0x0c ≡ Some 0) × (begun.rollover ≡ true) }
{}

/// Frame List Size: written while halted and not while running; a list of 512 elements rolls over each 4,096 microframes, one of 256 each 2,048.
pub fn list_size_rows()
    ensures halted { word_at (after_write reset_file 0x00 0x00080038) 0x00 ≡ Some 0x00080038 }
    ensures running { let opened = after_write reset_file 0x00 0x00080035 in word_at (after_write opened 0x00 0x00080039) 0x00 ≡ Some 0x00080035 }
    ensures rung { let opened = after_write reset_file 0x00 0x00080039 in word_at (after_write opened 0x00 0x00080079) 0x00 ≡ Some 0x00080079 }
    ensures half { (after_begin (after_writes reset_file ((0x0c, 0x0fff) ∷ (0x00, 0x00080035) ∷ []))).rollover ≡ true }
    ensures half_later { (after_begin (after_writes reset_file ((0x0c, 0x07ff) ∷ (0x00, 0x00080035) ∷ []))).rollover ≡ false }
    ensures quarter { (after_begin (after_writes reset_file ((0x0c, 0x07ff) ∷ (0x00, 0x00080039) ∷ []))).rollover ≡ true }
    ensures whole { (after_begin (after_writes reset_file ((0x0c, 0x0fff) ∷ (0x00, 0x00080031) ∷ []))).rollover ≡ false }
{}

/// The doorbell: set by a 1, left by a 0, cleared by `advance`, and by a reset with all the rest.
pub fn doorbell_rows()
    ensures { let rung = after_writes reset_file ((0x0c, 5) ∷ (0x00, 0x00080071) ∷ []) in
        (word_at rung 0x00 ≡ Some 0x00080071)
        × (word_at (after_write rung 0x00 0x00080031) 0x00 ≡ Some 0x00080071)
        × (word_at (after_advance rung) 0x00 ≡ Some 0x00080031)
        × (word_at (after_advance rung) 0x04 ≡ Some 0xc020)
        × (after_write rung 0x00 0x00080073 ≡ reset_file) }
{}

/// Reclamation and a host system error. The enables stay after the error, and nothing runs.
pub fn controller_rows()
    ensures { let opened = after_write reset_file 0x00 0x00080031 in
        (word_at (after_reclamation opened true) 0x04 ≡ Some 0xe000)
        × (after_reclamation (after_reclamation opened true) false ≡ opened)
        × (word_at (after_fault opened) 0x04 ≡ Some 0x1010)
        × (word_at (after_fault opened) 0x00 ≡ Some 0x00080030) }
{}

/// Each bit of the word that USBSTS reads tells what it stands for.
#[tactic(auto, using(crate::proofs::StatusBits::status_bits))]
pub fn status_tells()
    ensures interrupt { (r : RegisterFile) → has (word_of r Register.Status) 0x0001 ≡ r.interrupt }
    ensures error { (r : RegisterFile) → has (word_of r Register.Status) 0x0002 ≡ r.error }
    ensures port_change { (r : RegisterFile) → has (word_of r Register.Status) 0x0004 ≡ r.port_change }
    ensures rollover { (r : RegisterFile) → has (word_of r Register.Status) 0x0008 ≡ r.rollover }
    ensures host_system_error { (r : RegisterFile) → has (word_of r Register.Status) 0x0010 ≡ r.host_system_error }
    ensures async_advance { (r : RegisterFile) → has (word_of r Register.Status) 0x0020 ≡ r.async_advance }
    ensures halted { (r : RegisterFile) → has (word_of r Register.Status) 0x1000 ≡ not r.run }
    ensures reclamation { (r : RegisterFile) → has (word_of r Register.Status) 0x2000 ≡ r.reclamation }
    ensures periodic_status { (r : RegisterFile) → has (word_of r Register.Status) 0x4000 ≡ (r.run && r.periodic_enable) }
    ensures async_status { (r : RegisterFile) → has (word_of r Register.Status) 0x8000 ≡ (r.run && r.async_enable) }
{}

/// Nothing but `advance` and a reset clears the doorbell (EHCI 1.0 section 4.8.2).
pub fn doorbell_stays()
    ensures write { (r : RegisterFile) (off word : ℕ) → r.doorbell ≡ true → (after_write r off word ≡ reset_of r) ⊎ ((after_write r off word).doorbell ≡ true) }
    ensures raise { (r : RegisterFile) (set : Status) → (after_raise r set).doorbell ≡ r.doorbell }
    ensures begin { (r : RegisterFile) → (after_begin r).doorbell ≡ r.doorbell }
    ensures reclamation { (r : RegisterFile) (on : Bool) → (after_reclamation r on).doorbell ≡ r.doorbell }
    ensures fault { (r : RegisterFile) → (after_fault r).doorbell ≡ r.doorbell }
{}
