ghost use Rattle.std.specs.Prelude.{◌≡◌, ◌≤◌, ◌<◌, ◌+◌, ◌*◌, unwrap_or};
ghost use Rattle.word_mem.specs.Memory.{word_at};
ghost use Rattle.itd_sitd.specs.Sitd.{IsSitdInRange};
ghost use Rattle.drv_periodic_table.specs.Descriptors.{new_sitd, parts_of, part_count, part_position, sitd_in, split_failed, moved_beside};
ghost use Rattle.drv_iso.specs.Found.{sitd_found};

use crate::descriptors::address_in;
use crate::slots::sends_to_host;
use crate::words::word_or_zero;
use drv_periodic_table::DescriptorNote;
use drv_table::Found;
use itd_sitd::Sitd;
use link_words::{LinkBits, ShortLink, bit, field};
use usb_base::limits::BYTE_TIMES_OF_MICROFRAME;
use usb_base::{DevAddr, EpDesc};
use word_mem::WordMem;

/// How many parts an OUT of so many bytes is sent in.
fn parts(bytes: u16) -> u8
    requires { bytes ≤ 1023 }
    ensures parts { result ≡ parts_of bytes }
    ensures few { result ≤ 6 }
{
    if bytes == 0 {
        return 1;
    }
    ((bytes + (BYTE_TIMES_OF_MICROFRAME - 1)) / BYTE_TIMES_OF_MICROFRAME) as u8
}

/// How many parts are to be sent, none by an IN.
fn parts_to_send(desc: &EpDesc, bytes: u16) -> u8
    requires { bytes ≤ 1023 }
    ensures parts { result ≡ part_count desc.now bytes }
    ensures few { result ≤ 6 }
{
    if sends_to_host(desc.name.way) {
        return 0;
    }
    parts(bytes)
}

/// Where the first of so many parts stands among them.
fn position(parts: u8) -> u8
    ensures position { result ≡ part_position parts }
    ensures few { result ≤ 1 }
{
    if parts <= 1 { 0 } else { 1 }
}

/// The address of the hub, and 0 where there is none.
fn hub_address(hub: Option<DevAddr>) -> u8
    ensures hub { result ≡ unwrap_or hub 0 }
    ensures few { result ≤ 127 }
{
    match hub {
        Some(hub) => hub.get(),
        None => 0,
    }
}

/// A new siTD of this endpoint, with link word 0 (EHCI 1.0, 3.4).
pub fn new_sitd(desc: &EpDesc, note: &DescriptorNote) -> Sitd
    requires slot { note.now.slot ≤ 1023 }
    requires port { desc.now.port ≤ 127 }
    ensures sitd { result ≡ new_sitd desc.now note.now.smask note.now.cmask note.now.slot note.now.buffer }
    ensures range { IsSitdInRange result }
{
    let parts = parts_to_send(desc, note.slot);
    Sitd {
        link: LinkBits {
            t: false,
            typ: 0,
            address: 0,
        },
        addr: desc.name.addr.get(),
        ep: desc.name.num.get(),
        hub: hub_address(desc.hub),
        port: desc.port,
        dir_in: sends_to_host(desc.name.way),
        smask: note.smask,
        cmask: note.cmask,
        split_state: false,
        missed: false,
        xact_err: false,
        babble: false,
        buffer_error: false,
        err: false,
        active: true,
        c_prog: 0,
        total: note.slot,
        page_select: false,
        ioc: false,
        offset: (address_in(&note.buffer, 0) % 4096) as u16,
        page0: note.buffer[0] as u32 / 128,
        t_count: parts,
        tp: position(parts),
        page1: 0,
        back: ShortLink {
            t: true,
            address: 0,
        },
    }
}

/// The transfer state of the siTD in this block, its word 3 (EHCI 1.0, 3.4.3).
fn state_of(mem: &WordMem, block: u16) -> u32
    ensures { result ≡ word_at mem.now (32 * block + 12) }
{
    word_or_zero(mem, 32 * block as u32 + 12)
}

/// Whether the siTD in this block is active.
#[tactic(auto, unfolding(itd_sitd::specs::Sitd::sitd_at))]
fn is_active(mem: &WordMem, block: u16) -> bool
    ensures { result ≡ (sitd_in mem.now block).active }
{
    bit(state_of(mem, block), 7)
}

/// Whether the siTD in this block has an error bit: Missed, XactErr, Babble, BufferError or ERR.
#[tactic(auto, unfolding(itd_sitd::specs::Sitd::sitd_at))]
fn failed(mem: &WordMem, block: u16) -> bool
    ensures { result ≡ split_failed (sitd_in mem.now block) }
{
    let state = state_of(mem, block);
    bit(state, 2) || bit(state, 3) || bit(state, 4) || bit(state, 5) || bit(state, 6)
}

/// How many bytes the siTD in this block has left.
#[tactic(auto, unfolding(itd_sitd::specs::Sitd::sitd_at))]
fn bytes_left(mem: &WordMem, block: u16) -> u16
    ensures { result ≡ (sitd_in mem.now block).total }
{
    field(state_of(mem, block), 25, 16) as u16
}

/// Whether the siTD in this block is active, and otherwise whether it has an error bit.
pub(crate) fn sitd_found(mem: &WordMem, block: u16) -> Found
    ensures { result ≡ sitd_found mem.now block }
{
    if is_active(mem, block) {
        return Found::Active;
    }
    Found::Served(if failed(mem, block) { 1 } else { 0 })
}

/// How many of so many bytes the siTD in this block moved: none where it tells more left than it had.
pub(crate) fn moved_of_sitd(mem: &WordMem, block: u16, slot: u16) -> u16
    ensures moved { result ≡ moved_beside slot (sitd_in mem.now block).total }
    ensures within { result ≤ slot }
{
    let left = bytes_left(mem, block);
    if left <= slot { slot - left } else { 0 }
}
