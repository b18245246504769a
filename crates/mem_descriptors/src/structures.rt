ghost use Rattle.std.specs.Prelude.{◌≡◌, ◌%◌, ◌<◌, IfSome};
ghost use Rattle.word_mem.specs.Memory.{reaches};
ghost use Rattle.word_mem.specs.Access.{IsByController};
ghost use Rattle.link_words.specs.Layout.{IsWordInRange};
ghost use Rattle.itd_sitd.specs.Slot.{slot_rows};
ghost use Rattle.itd_sitd.specs.Itd.{IsItdInRange};
ghost use Rattle.itd_sitd.specs.Sitd.{IsSitdInRange};
ghost use Rattle.mem_descriptors.specs.Descriptors.{itd_at_address, itd_was_read, sitd_at_address, sitd_was_read, slot_address, slot_written, state_words, state_written};

use crate::blocks::{read_seven, read_sixteen, slot_place, write_three};
use hc_memory::HcMemory;
use itd_sitd::{Itd, ItdSlot, Sitd};

/// The controller reads the iTD at the byte address `at`, a multiple of 32 (EHCI 1.0, 4.7.1). None: one of its two blocks isn't Lent, and
/// one more refusal is counted; or one of its words has a reserved bit or value (3.3), and nothing changes.
pub fn read_itd<M: HcMemory>(mem: &mut M, at: u32) -> Option<Itd>
    requires { at % 32 ≡ 0 }
    ensures structure { result ≡ itd_at_address (M.mem mem.old) at }
    ensures range { IfSome result IsItdInRange }
    ensures memory { M.mem mem.new ≡ itd_was_read (M.mem mem.old) at }
    ensures only_lent { IsByController (M.mem mem.old) (M.mem mem.new) }
{
    let words = read_sixteen(mem, at)?;
    Itd::read(&words).ok()
}

/// The controller reads the siTD at the byte address `at`, a multiple of 32 (EHCI 1.0, 4.12.3). None: its block isn't Lent, and one more
/// refusal is counted; or one of its words has a reserved bit (3.4), and nothing changes.
pub fn read_sitd<M: HcMemory>(mem: &mut M, at: u32) -> Option<Sitd>
    requires { at % 32 ≡ 0 }
    ensures structure { result ≡ sitd_at_address (M.mem mem.old) at }
    ensures range { IfSome result IsSitdInRange }
    ensures memory { M.mem mem.new ≡ sitd_was_read (M.mem mem.old) at }
    ensures only_lent { IsByController (M.mem mem.old) (M.mem mem.new) }
{
    let words = read_seven(mem, at)?;
    Sitd::read(&words).ok()
}

/// The controller writes the word of microframe `number` to the iTD at the byte address `at`, a multiple of 32 (EHCI 1.0, 4.7.1). False:
/// the block of that word isn't Lent, and one more refusal is counted.
pub fn write_slot<M: HcMemory>(mem: &mut M, at: u32, number: u8, slot: &ItdSlot) -> bool
    requires aligned { at % 32 ≡ 0 }
    requires number { number < 8 }
    requires range { IsWordInRange slot_rows slot.now }
    ensures written { result ≡ reaches (M.mem mem.old) (slot_address at number) }
    ensures memory { M.mem mem.new ≡ slot_written (M.mem mem.old) at number slot.now }
    ensures only_lent { IsByController (M.mem mem.old) (M.mem mem.new) }
{
    let place = slot_place(mem, at, number);
    mem.hc_write(place, slot.to_word())
}

/// The controller writes words 3 to 5 of a siTD, each of whose fields is in its range, to the siTD at the byte address `at`, a multiple of
/// 32 (EHCI 1.0, 4.12.3.3). False: its block isn't Lent, and one more refusal is counted.
pub fn write_state<M: HcMemory>(mem: &mut M, at: u32, sitd: &Sitd) -> bool
    requires aligned { at % 32 ≡ 0 }
    requires range { IsSitdInRange sitd.now }
    ensures written { result ≡ reaches (M.mem mem.old) at }
    ensures memory { M.mem mem.new ≡ state_written (M.mem mem.old) at (state_words sitd.now) }
    ensures only_lent { IsByController (M.mem mem.old) (M.mem mem.new) }
{
    let words = sitd.write();
    write_three(mem, at, &words[3..6])
}
