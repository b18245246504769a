ghost use Rattle.std.specs.Prelude.{◌≡◌, ◌+◌, ◌*◌, ◌≤◌, length, IsTrue};
ghost use Rattle.word_mem.specs.Access.{IsByController};
ghost use Rattle.qh_qtd.specs.QueueHead.{IsQhInRange};
ghost use Rattle.mem_bytes.specs.Bytes.{ArePages};
ghost use Rattle.hc_copy.specs.Overlay.{pages_of, buffer_place};
ghost use Rattle.hc_copy.specs.Buffer.{size_of, bytes_read, sending, bytes_written};

use crate::held::Transaction;
use hc_memory::HcMemory;
use mem_bytes::{hc_load, hc_store};
use qh_qtd::Qh;

/// The bytes of a page (EHCI 1.0, 3.5.4).
const PAGE: u32 = 4096;

/// Reads the bytes of a buffer in these pages from byte `from` on, into all of `into`. False: one of them lies past the last page, and
/// nothing was tried; or one may not be touched, and one more refusal is counted.
pub fn load_bytes<M: HcMemory>(mem: &mut M, pages: &[u32], from: u32, into: &mut [u8]) -> bool
    requires pages { ArePages pages.now }
    requires inside { from ≤ size_of pages.now }
    requires few { length pages.now ≤ 7 }
    requires size { length into.old ≤ 1024 }
    ensures all { result ≡ (bytes_read pages.now from (length into.old) (M.mem mem.old)).all }
    ensures memory { M.mem mem.new ≡ (bytes_read pages.now from (length into.old) (M.mem mem.old)).memory }
    ensures bytes { IsTrue result → into.new ≡ (bytes_read pages.now from (length into.old) (M.mem mem.old)).bytes }
    ensures only_lent { IsByController (M.mem mem.old) (M.mem mem.new) }
{
    let size = PAGE * pages.len() as u32;
    if into.len() as u32 > size - from {
        return false;
    }
    hc_load(mem, pages, from, into)
}

/// Writes received bytes to a buffer in these pages from byte `from` on. False: one of them lies past the last page, or may not be
/// touched; the bytes before it are written.
pub fn store_bytes<M: HcMemory>(mem: &mut M, pages: &[u32], from: u32, got: &[u8]) -> bool
    requires pages { ArePages pages.now }
    requires inside { from ≤ size_of pages.now }
    requires few { length pages.now ≤ 7 }
    requires size { length got.now ≤ 1024 }
    ensures all { result ≡ (bytes_written pages.now from got.now (M.mem mem.old)).all }
    ensures memory { M.mem mem.new ≡ (bytes_written pages.now from got.now (M.mem mem.old)).memory }
    ensures only_lent { IsByController (M.mem mem.old) (M.mem mem.new) }
{
    let size = PAGE * pages.len() as u32;
    let room = (size - from) as usize;
    if got.len() <= room {
        return hc_store(mem, pages, from, got);
    }
    hc_store(mem, pages, from, &got[..room]);
    false
}

/// Reads the bytes that a transaction of a queue head sends, into all of `into`. False: one of them lies past the fifth page, and nothing
/// was tried; or one may not be touched, and one more refusal is counted.
pub fn read_out<M: HcMemory>(mem: &mut M, t: &Transaction, queue_head: &Qh, into: &mut [u8]) -> bool
    requires range { IsQhInRange queue_head.now }
    requires room { length into.old ≡ t.now.bytes }
    requires size { t.now.bytes ≤ 1024 }
    ensures all { result ≡ (sending t.now queue_head.now (M.mem mem.old)).all }
    ensures memory { M.mem mem.new ≡ (sending t.now queue_head.now (M.mem mem.old)).memory }
    ensures bytes { IsTrue result → into.new ≡ (sending t.now queue_head.now (M.mem mem.old)).bytes }
    ensures only_lent { IsByController (M.mem mem.old) (M.mem mem.new) }
{
    let pages = [
        queue_head.page0,
        queue_head.page1,
        queue_head.page2,
        queue_head.page3,
        queue_head.page4,
    ];
    let from = queue_head.token.c_page as u32 * PAGE + queue_head.offset as u32;
    load_bytes(mem, &pages, from, into)
}
