ghost use Rattle.std.specs.Prelude.{◌≡◌, ◌≤◌, ◌<◌, ◌+◌, ◌*◌, length, IsTrue};
ghost use Rattle.word_mem.specs.Access.{IsByController};
ghost use Rattle.mem_bytes.specs.Bytes.{ArePages};
ghost use Rattle.link_words.specs.Layout.{IsWordInRange};
ghost use Rattle.itd_sitd.specs.Slot.{slot_rows};
ghost use Rattle.itd_sitd.specs.Itd.{IsItdInRange};
ghost use Rattle.itd_sitd.specs.Sitd.{IsSitdInRange};
ghost use Rattle.hc_copy.specs.Buffer.{size_of, bytes_read, bytes_written};
ghost use Rattle.hc_iso.specs.Itd.{IsItdHeld};
ghost use Rattle.hc_iso.specs.Sitd.{IsSitdHeld, moved_sitd, sitd_place};
ghost use Rattle.hc_iso.specs.WriteBack.{iso_raised, itd_pages, slot_place, itd_sending, done_slot, slot_back, itd_written, is_failed, itd_raised, sitd_pages, sitd_sending, moved_by, bytes_of, sitd_received, sitd_written, has_failed, sitd_raised};

use crate::held::{HeldItd, HeldSitd, IsoEnd, IsoTransaction, SplitOutcome};
use hc_copy::load_bytes;
use hc_memory::HcMemory;
use itd_sitd::{Itd, ItdSlot, Sitd};
use mem_bytes::hc_store;
use mem_descriptors::{write_slot, write_state};
use op_registers::{Registers, Status};
use usb_base::Reply;

/// Reads the bytes of a buffer in these pages from byte `from` on, into all of `into`. False: one of them lies past the last page, and
/// nothing was tried; or one may not be touched, and one more refusal is counted.
fn load<M: HcMemory>(mem: &mut M, pages: &[u32], from: u32, into: &mut [u8]) -> bool
    requires pages { ArePages pages.now }
    requires few { length pages.now ≤ 7 }
    requires size { length into.old ≤ 1024 }
    ensures all { result ≡ (bytes_read pages.now from (length into.old) (M.mem mem.old)).all }
    ensures memory { M.mem mem.new ≡ (bytes_read pages.now from (length into.old) (M.mem mem.old)).memory }
    ensures bytes { IsTrue result → into.new ≡ (bytes_read pages.now from (length into.old) (M.mem mem.old)).bytes }
    ensures only_lent { IsByController (M.mem mem.old) (M.mem mem.new) }
{
    if from > 4096 * pages.len() as u32 {
        return false;
    }
    load_bytes(mem, pages, from, into)
}

/// Writes received bytes to a buffer in these pages from byte `from` on. False: one of them lies past the last page, or may not be
/// touched; the bytes before it are written.
fn store<M: HcMemory>(mem: &mut M, pages: &[u32], from: u32, got: &[u8]) -> bool
    requires pages { ArePages pages.now }
    requires inside { from ≤ size_of pages.now }
    requires few { length pages.now ≤ 7 }
    requires size { length got.now ≤ 3072 }
    ensures written { record { memory = M.mem mem.new; all = result } ≡ bytes_written pages.now from got.now (M.mem mem.old) }
    ensures only_lent { IsByController (M.mem mem.old) (M.mem mem.new) }
{
    let size = 4096 * pages.len() as u32;
    let room = (size - from) as usize;
    if got.len() <= room {
        return hc_store(mem, pages, from, got);
    }
    hc_store(mem, pages, from, &got[..room]);
    false
}

/// The USB interrupt and the error interrupt of an isochronous descriptor.
#[tactic(auto, unfolding(crate::specs::WriteBack::iso_raised))]
fn raise(regs: &mut Registers, ended: bool, failed: bool)
    ensures { regs.new ≡ iso_raised ended failed regs.old }
{
    if ended {
        regs.raise(Status::INTERRUPT);
    }
    if failed {
        regs.raise(Status::ERROR);
    }
}

#[tactic(auto, using(crate::proofs::Pages::itd_are_pages))]
fn pages_of_itd(itd: &Itd) -> [u32; 7]
    requires { IsItdInRange itd.now }
    ensures pages { result ≡ itd_pages itd.now }
    ensures are { ArePages result }
{
    [
        itd.page0, itd.page1, itd.page2, itd.page3, itd.page4, itd.page5, itd.page6,
    ]
}

/// The place of the first byte of a microframe.
fn place_of_slot(slot: &ItdSlot) -> u32
    requires { IsWordInRange slot_rows slot.now }
    ensures place { result ≡ slot_place slot.now }
    ensures bound { result < 28672 }
{
    slot.pg as u32 * 4096 + slot.offset as u32
}

/// Reads the bytes that the next transaction of an iTD sends, into all of `into`. False: one of them lies past the last page, and nothing
/// was tried; or one may not be touched, and one more refusal is counted.
pub fn load_itd<M: HcMemory>(
    mem: &mut M,
    t: &IsoTransaction,
    held: &HeldItd,
    into: &mut [u8],
) -> bool
    requires held { IsItdHeld held.now }
    requires room { length into.old ≡ t.now.bytes }
    requires size { t.now.bytes ≤ 1024 }
    ensures all { result ≡ (itd_sending t.now held.now (M.mem mem.old)).all }
    ensures memory { M.mem mem.new ≡ (itd_sending t.now held.now (M.mem mem.old)).memory }
    ensures bytes { IsTrue result → into.new ≡ (itd_sending t.now held.now (M.mem mem.old)).bytes }
    ensures only_lent { IsByController (M.mem mem.old) (M.mem mem.new) }
{
    let pages = pages_of_itd(&held.itd);
    load(
        mem,
        &pages,
        place_of_slot(&held.slot) + held.moved as u32,
        into,
    )
}

/// The word of the microframe that is done.
#[tactic(auto, using(crate::proofs::Pages::done_in_range), unfolding(crate::specs::WriteBack::done_slot))]
fn done(held: &HeldItd) -> ItdSlot
    requires { IsItdHeld held.now }
    ensures slot { result ≡ done_slot held.now }
    ensures range { IsWordInRange slot_rows result }
{
    ItdSlot {
        active: false,
        length: held.moved,
        ..held.slot
    }
}

fn write_done<M: HcMemory>(mem: &mut M, held: &HeldItd) -> bool
    requires { IsItdHeld held.now }
    ensures written { record { memory = M.mem mem.new; all = result } ≡ slot_back held.now (M.mem mem.old) }
    ensures only_lent { IsByController (M.mem mem.old) (M.mem mem.new) }
{
    let slot = done(held);
    write_slot(mem, held.at, held.number, &slot)
}

fn write_got<M: HcMemory>(mem: &mut M, held: &HeldItd, got: &[u8]) -> bool
    requires held { IsItdHeld held.now }
    requires size { length got.now ≤ 3072 }
    ensures written { record { memory = M.mem mem.new; all = result }
        ≡ bytes_written (itd_pages held.now.itd) (slot_place held.now.slot) got.now (M.mem mem.old) }
    ensures only_lent { IsByController (M.mem mem.old) (M.mem mem.new) }
{
    let pages = pages_of_itd(&held.itd);
    store(mem, &pages, place_of_slot(&held.slot), got)
}

/// Writes back the microframe of an iTD of which all transactions were made: the bytes received, and its word (EHCI 1.0, 4.7.1). False:
/// something may not be touched, or a byte has no place; what comes before it is written.
#[inline(never)]
#[tactic(auto, unfolding(crate::specs::WriteBack::itd_written))]
pub fn write_itd<M: HcMemory>(mem: &mut M, held: &HeldItd, got: &[u8]) -> bool
    requires held { IsItdHeld held.now }
    requires size { length got.now ≤ 3072 }
    ensures written { record { memory = M.mem mem.new; all = result } ≡ itd_written held.now got.now (M.mem mem.old) }
    ensures only_lent { IsByController (M.mem mem.old) (M.mem mem.new) }
{
    write_got(mem, held, got) && write_done(mem, held)
}

fn has_error(ended: IsoEnd) -> bool
    ensures { result ≡ is_failed ended }
{
    match ended {
        IsoEnd::Whole => false,
        IsoEnd::Failed => true,
    }
}

/// Raises what the microframe of an iTD calls for, once it is written back (EHCI 1.0, 4.15.1).
pub fn raise_itd(regs: &mut Registers, held: &HeldItd, ended: IsoEnd)
    ensures { regs.new ≡ itd_raised held.now ended regs.old }
{
    raise(regs, held.slot.ioc, has_error(ended));
}

fn place_of_sitd(sitd: &Sitd) -> u32
    requires { IsSitdInRange sitd.now }
    ensures place { result ≡ sitd_place sitd.now }
    ensures bound { result < 8192 }
{
    sitd.page_select as u32 * 4096 + sitd.offset as u32
}

/// Reads the bytes that the next transaction of a siTD sends, into all of `into`. False: one of them lies past the last page, and nothing
/// was tried; or one may not be touched, and one more refusal is counted.
#[tactic(auto, using(crate::proofs::Pages::sitd_are_pages))]
pub fn load_sitd<M: HcMemory>(mem: &mut M, t: &IsoTransaction, sitd: &Sitd, into: &mut [u8]) -> bool
    requires range { IsSitdInRange sitd.now }
    requires room { length into.old ≡ t.now.bytes }
    requires size { t.now.bytes ≤ 1024 }
    ensures all { result ≡ (sitd_sending t.now sitd.now (M.mem mem.old)).all }
    ensures memory { M.mem mem.new ≡ (sitd_sending t.now sitd.now (M.mem mem.old)).memory }
    ensures bytes { IsTrue result → into.new ≡ (sitd_sending t.now sitd.now (M.mem mem.old)).bytes }
    ensures only_lent { IsByController (M.mem mem.old) (M.mem mem.new) }
{
    let pages = [sitd.page0, sitd.page1];
    load(mem, &pages, place_of_sitd(sitd), into)
}

/// The siTD after this number of bytes was moved.
#[tactic(auto, using(crate::proofs::Ranges::moved_in_range), unfolding(crate::specs::Sitd::moved_sitd))]
fn moved(sitd: &Sitd, bytes: u16) -> Sitd
    requires { IsSitdInRange sitd.now }
    ensures value { result ≡ moved_sitd bytes sitd.now }
    ensures range { IsSitdInRange result }
{
    let place = sitd.offset as u32 + bytes as u32;
    Sitd {
        offset: (place % 4096) as u16,
        page_select: sitd.page_select || place >= 4096,
        ..*sitd
    }
}

fn count(outcome: SplitOutcome) -> u16
    ensures { result ≡ moved_by outcome }
{
    match outcome {
        SplitOutcome::Moved(bytes) => bytes,
        _ => 0,
    }
}

/// The bytes of a reply.
pub fn bytes(reply: &Reply) -> &[u8]
    ensures bytes { result.now ≡ bytes_of reply.now }
    ensures bound { length result.now ≤ 1024 }
{
    match reply {
        Reply::Bytes(_, packet) => packet.as_slice(),
        _ => &[],
    }
}

/// The bytes that a complete-split received.
fn received(dir_in: bool, outcome: SplitOutcome, reply: &Reply) -> &[u8]
    ensures bytes { result.now ≡ sitd_received dir_in outcome reply.now }
    ensures bound { length result.now ≤ 1024 }
{
    match (dir_in, outcome) {
        (true, SplitOutcome::Moved(_)) => bytes(reply),
        _ => &[],
    }
}

#[tactic(auto, using(crate::proofs::Pages::sitd_are_pages))]
fn write_bytes<M: HcMemory>(mem: &mut M, sitd: &Sitd, got: &[u8]) -> bool
    requires range { IsSitdInRange sitd.now }
    requires size { length got.now ≤ 1024 }
    ensures written { record { memory = M.mem mem.new; all = result }
        ≡ bytes_written (sitd_pages sitd.now) (sitd_place sitd.now) got.now (M.mem mem.old) }
    ensures only_lent { IsByController (M.mem mem.old) (M.mem mem.new) }
{
    let pages = [sitd.page0, sitd.page1];
    store(mem, &pages, place_of_sitd(sitd), got)
}

#[tactic(auto, unfolding(crate::specs::WriteBack::sitd_written))]
fn write_all<M: HcMemory>(mem: &mut M, held: &HeldSitd, outcome: SplitOutcome, got: &[u8]) -> bool
    requires held { IsSitdHeld held.now }
    requires size { length got.now ≤ 1024 }
    ensures written { record { memory = M.mem mem.new; all = result }
        ≡ sitd_written held.now.at held.now.sitd outcome got.now (M.mem mem.old) }
    ensures only_lent { IsByController (M.mem mem.old) (M.mem mem.new) }
{
    let new = moved(&held.sitd, count(outcome));
    write_bytes(mem, &held.sitd, got) && write_state(mem, held.at, &new)
}

/// Writes back what the transaction of a siTD came to, which `reply` answered: the bytes received, and words 3 to 5 (EHCI 1.0, 4.12.3.3).
/// False: something may not be touched, or a byte has no place; what comes before it is written.
#[inline(never)]
pub fn write_sitd<M: HcMemory>(
    mem: &mut M,
    held: &HeldSitd,
    outcome: SplitOutcome,
    reply: &Reply,
) -> bool
    requires { IsSitdHeld held.now }
    ensures written { record { memory = M.mem mem.new; all = result }
        ≡ sitd_written held.now.at held.now.sitd outcome (sitd_received held.now.sitd.dir_in outcome reply.now) (M.mem mem.old) }
    ensures only_lent { IsByController (M.mem mem.old) (M.mem mem.new) }
{
    let got = received(held.sitd.dir_in, outcome, reply);
    write_all(mem, held, outcome, got)
}

fn failed(outcome: SplitOutcome) -> bool
    ensures { result ≡ has_failed outcome }
{
    match outcome {
        SplitOutcome::Failed => true,
        _ => false,
    }
}

/// Raises what the transaction of a siTD calls for, once it is written back (EHCI 1.0, 4.15.1).
pub fn raise_sitd(regs: &mut Registers, sitd: &Sitd, outcome: SplitOutcome)
    ensures { regs.new ≡ sitd_raised sitd.now outcome regs.old }
{
    raise(regs, !sitd.active && sitd.ioc, failed(outcome));
}
