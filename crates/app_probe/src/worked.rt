//! Worked values of the definitions, which the check computes.
ghost use Rattle.std.specs.Prelude.{◌≡◌, [], Some, None, true, false, replicate};
ghost use Rattle.op_registers.specs.Table.{word_at};
ghost use Rattle.word_mem.specs.Memory.{reaches, word_at as word_of};
ghost use Rattle.app_probe.specs.Window.{lent_from};
ghost use Rattle.hc_core.specs.Controller.{microframe_row, kind_of, began};
ghost use Rattle.app_probe.specs.Probe.{opening_registers, opening, counted};

use hc_core::{ControllerRow, HcStep};

/// The registers that a probe begins with: those of an image of microframe 14h with its frame list at 2000h and its ring at 1040h.
pub fn registers()
    ensures command { word_at (opening_registers (record { frindex = 0x14; list_base = 0x2000; async_at = 0x1040; base = 0; words = [] })) 0x00 ≡ Some 0x00080031 }
    ensures status { word_at (opening_registers (record { frindex = 0x14; list_base = 0x2000; async_at = 0x1040; base = 0; words = [] })) 0x04 ≡ Some 0x0000c000 }
    ensures microframe { word_at (opening_registers (record { frindex = 0x14; list_base = 0x2000; async_at = 0x1040; base = 0; words = [] })) 0x0c ≡ Some 0x14 }
    ensures list { word_at (opening_registers (record { frindex = 0x14; list_base = 0x2000; async_at = 0x1040; base = 0; words = [] })) 0x14 ≡ Some 0x2000 }
    ensures ring { word_at (opening_registers (record { frindex = 0x14; list_base = 0x2000; async_at = 0x1040; base = 0; words = [] })) 0x18 ≡ Some 0x1040 }
{}

/// The first event is a Begin. Over no words at all the element of the frame list is refused, once, and that is a host system error; the
/// next event is Idle, and no step.
pub fn first_events()
    ensures begins { let start = opening (record { frindex = 0; list_base = 0; async_at = 0; base = 0; words = [] }) in microframe_row start.registers start.control ≡ ControllerRow.Begin }
    ensures refused { let after = began true (opening (record { frindex = 0; list_base = 0; async_at = 0; base = 0; words = [] })) in
        (after.memory.foreign ≡ 1) × (after.registers.host_system_error ≡ true) × (after.registers.run ≡ false) × (microframe_row after.registers after.control ≡ ControllerRow.Idle) }
    ensures step { counted HcStep.Begin ≡ 1 }
    ensures none { counted HcStep.Idle ≡ 0 }
{}

/// Two blocks of words from the address 40h on: both are reached, and nothing below or behind them is.
pub fn windows()
    ensures below { reaches (lent_from 0x40 (replicate 16 7)) 0x3c ≡ false }
    ensures first { reaches (lent_from 0x40 (replicate 16 7)) 0x40 ≡ true }
    ensures last { reaches (lent_from 0x40 (replicate 16 7)) 0x7c ≡ true }
    ensures behind { reaches (lent_from 0x40 (replicate 16 7)) 0x80 ≡ false }
    ensures word { word_of (lent_from 0x40 (replicate 16 7)) 0x40 ≡ 7 }
{}
