ghost use Rattle.std.specs.Prelude.{◌≡◌, ◌≤◌, ◌<◌, ◌*◌, slice_index, length};
ghost use Rattle.link_words.specs.Layout.{IsWordInRange};
ghost use Rattle.itd_sitd.specs.Itd.{IsItdInRange};
ghost use Rattle.itd_sitd.specs.Slot.{slot_rows, no_slot};
ghost use Rattle.drv_periodic_table.specs.Descriptors.{buffer_address, active_slot, new_slot, new_itd};

use crate::slots::{count_before, has_bit, sends_to_host};
use drv_periodic_table::DescriptorNote;
use itd_sitd::{Itd, ItdSlot};
use link_words::LinkBits;
use usb_base::EpDesc;

/// Where byte `j` of a buffer stands.
pub(crate) fn address_in(buffer: &[u16; 6], j: u32) -> u32
    ensures address { result ≡ buffer_address buffer.now j }
{
    let block = match buffer.get((j / 4096) as usize) {
        Some(block) => *block,
        None => 0,
    };
    32 * block as u32 + j % 4096
}

/// A slot with nothing to do.
fn empty_slot() -> ItdSlot
    ensures slot { result ≡ no_slot }
    ensures range { IsWordInRange slot_rows result }
{
    ItdSlot {
        offset: 0,
        pg: 0,
        ioc: false,
        length: 0,
        xact_err: false,
        babble: false,
        buffer_error: false,
        active: false,
    }
}

/// A slot of so many bytes, from byte `j` of the buffer on.
fn slot_at_byte(slot: u16, buffer: &[u16; 6], j: u16) -> ItdSlot
    requires slot { slot ≤ 3072 }
    requires place { j ≤ 24576 }
    ensures slot { result ≡ active_slot slot buffer.now j }
    ensures range { IsWordInRange slot_rows result }
{
    ItdSlot {
        offset: (address_in(buffer, j as u32) % 4096) as u16,
        pg: (j / 4096) as u8,
        ioc: false,
        length: slot,
        xact_err: false,
        babble: false,
        buffer_error: false,
        active: true,
    }
}

/// The slot of a microframe.
fn slot_in_frame(note: &DescriptorNote, u: u8) -> ItdSlot
    requires slot { note.now.slot ≤ 3072 }
    requires within { u ≤ 7 }
    ensures slot { result ≡ new_slot note.now.smask note.now.slot note.now.buffer u }
    ensures range { IsWordInRange slot_rows result }
{
    if has_bit(note.smask, u) {
        return slot_at_byte(
            note.slot,
            &note.buffer,
            count_before(note.smask, u) * note.slot,
        );
    }
    empty_slot()
}

/// A new iTD of this endpoint, with link word 0 (EHCI 1.0, 3.3).
pub fn new_itd(desc: &EpDesc, note: &DescriptorNote) -> Itd
    requires slot { note.now.slot ≤ 3072 }
    requires max { desc.now.max ≤ 1024 }
    requires some { 1 ≤ desc.now.multi }
    requires multi { desc.now.multi ≤ 3 }
    ensures itd { result ≡ new_itd desc.now note.now.smask note.now.slot note.now.buffer }
    ensures range { IsItdInRange result }
{
    Itd {
        link: LinkBits {
            t: false,
            typ: 0,
            address: 0,
        },
        slots: [
            slot_in_frame(note, 0),
            slot_in_frame(note, 1),
            slot_in_frame(note, 2),
            slot_in_frame(note, 3),
            slot_in_frame(note, 4),
            slot_in_frame(note, 5),
            slot_in_frame(note, 6),
            slot_in_frame(note, 7),
        ],
        addr: desc.name.addr.get(),
        ep: desc.name.num.get(),
        page0: note.buffer[0] as u32 / 128,
        max: desc.max,
        dir_in: sends_to_host(desc.name.way),
        page1: note.buffer[1] as u32 / 128,
        multi: desc.multi,
        page2: note.buffer[2] as u32 / 128,
        page3: note.buffer[3] as u32 / 128,
        page4: note.buffer[4] as u32 / 128,
        page5: note.buffer[5] as u32 / 128,
        page6: 0,
    }
}
