ghost use Rattle.std.specs.Prelude.{◌≡◌, ◌+◌, ◌*◌, ◌≤◌, length, if◌then◌else◌};
ghost use Rattle.word_mem.specs.Memory.{refused};
ghost use Rattle.word_mem.specs.Access.{IsByController};
ghost use Rattle.mem_bytes.specs.Bytes.{ArePages, AreThere, all_reached, stored, loaded, bytes_at};

use crate::pieces::{get, hc_get, hc_put};
use hc_memory::HcMemory;
use word_mem::WordMem;

/// The controller stores these bytes into a buffer in these pages, from byte `from` on, where `from` counts from the start of the first
/// page (EHCI 1.0, 4.10.6). False: it may not touch one of their places, which lies in no Lent block; then the bytes before it are
/// stored and one more refusal is counted.
pub fn hc_store<M: HcMemory>(mem: &mut M, pages: &[u32], from: u32, bytes: &[u8]) -> bool
    requires pages { ArePages pages.now }
    requires inside { from + length bytes.now ≤ 4096 * length pages.now }
    ensures all { result ≡ all_reached (M.mem mem.old) pages.now from (length bytes.now) }
    ensures memory { M.mem mem.new ≡ stored (M.mem mem.old) pages.now from bytes.now }
    ensures only_lent { IsByController (M.mem mem.old) (M.mem mem.new) }
{
    let mut done = 0;
    while done < bytes.len() {
        match hc_put(mem, pages, from + done as u32, &bytes[done..]) {
            None => return false,
            Some(n) => done += n,
        }
    }
    true
}

/// The controller loads the bytes of a buffer in these pages, from byte `from` on, into all of `into`; `from` counts from the start of
/// the first page (EHCI 1.0, 4.10.6). False: it may not touch one of their places, which lies in no Lent block; then the bytes before it
/// are loaded, the places after them stay as they are, and one more refusal is counted.
pub fn hc_load<M: HcMemory>(mem: &mut M, pages: &[u32], from: u32, into: &mut [u8]) -> bool
    requires pages { ArePages pages.now }
    requires inside { from + length into.old ≤ 4096 * length pages.now }
    ensures all { result ≡ all_reached (M.mem mem.old) pages.now from (length into.old) }
    ensures memory { M.mem mem.new ≡
        (if all_reached (M.mem mem.old) pages.now from (length into.old) then M.mem mem.old else refused (M.mem mem.old)) }
    ensures only_lent { IsByController (M.mem mem.old) (M.mem mem.new) }
    ensures bytes { into.new ≡ loaded (M.mem mem.old) pages.now from into.old }
{
    let mut done = 0;
    while done < into.len() {
        match hc_get(mem, pages, from + done as u32, &mut into[done..]) {
            None => return false,
            Some(n) => done += n,
        }
    }
    true
}

/// The driver reads the bytes of a buffer in these pages, from byte `from` on, into all of `into`; `from` counts from the start of the
/// first page (EHCI 1.0, 4.10.6), and each place lies in memory.
pub fn load(mem: &WordMem, pages: &[u32], from: u32, into: &mut [u8])
    requires pages { ArePages pages.now }
    requires inside { from + length into.old ≤ 4096 * length pages.now }
    requires there { AreThere mem.now pages.now from (length into.old) }
    ensures { into.new ≡ bytes_at mem.now pages.now from (length into.old) }
{
    let mut done = 0;
    while done < into.len() {
        done += get(mem, pages, from + done as u32, &mut into[done..]);
    }
}
