ghost use Rattle.std.specs.Prelude.{◌≡◌, ℕ, ◌%◌};
ghost use Rattle.word_mem.specs.Memory.{Mem};
ghost use Rattle.op_registers.specs.RegisterFile.{RegisterFile};
ghost use Rattle.hc_core.specs.Controller.{Content, new_control, content, microframe_row, HasRow};
ghost use Rattle.law_ring.specs.walk_writes.Writes.{WritesLent};
ghost use Rattle.law_controller.specs.aligned_copies.Aligned.{AreAligned};

use usb_base::Wire;

/// A new controller has nothing in hand, and its ring begins at a multiple of 32.
pub fn a_new_controller_is_aligned()
    ensures { (r : RegisterFile) (m : Mem) → r.async_list_address % 32 ≡ 0 → AreAligned (content new_control r m) }
{}

/// Each event of the controller keeps all addresses so.
pub fn each_event_keeps_addresses_aligned<W: Wire>()
    ensures { (c : Content) (wire : W) (new : Content) (after : W) → AreAligned c
        → HasRow W.begins W.transacts (microframe_row c.registers c.control) c wire new after → AreAligned new }
{}

/// So it leaves the states of blocks, and every word that isn't in a Lent block.
pub fn an_aligned_controller_writes_lent_words<W: Wire>()
    ensures { (c : Content) (wire : W) (new : Content) (after : W) → AreAligned c
        → HasRow W.begins W.transacts (microframe_row c.registers c.control) c wire new after → WritesLent c.memory new.memory }
{}
