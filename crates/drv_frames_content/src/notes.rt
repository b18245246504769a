ghost use Rattle.std.specs.Prelude.{◌≡◌, ◌≤◌, drop, slice_index, slice_set};
ghost use Rattle.mem_runs.specs.Book.{holding, Stands};
ghost use Rattle.drv_periodic_table.specs.Descriptors.{slot_limit};
ghost use Rattle.drv_periodic_table.specs.Periodic.{note_at};
ghost use Rattle.drv_table.specs.IsoOffers.{descriptor_note, written_descriptor, total_of};
ghost use Rattle.drv_frames_content.specs.Part.{with_notes};

use crate::part::{NO_DESCRIPTOR, PeriodicPart};
use drv_iso::write_descriptor;
use drv_periodic_table::DescriptorNote;
use drv_table::Slots;
use mem_runs::RunBook;
use usb_base::EpDesc;
use word_mem::WordMem;

impl PeriodicPart {
    /// What is known of the descriptor in this block.
    pub fn note(&self, block: u16) -> DescriptorNote
        ensures { result ≡ note_at self.now.periodic.notes block }
    {
        match self.notes.get(block as usize) {
            Some(note) => *note,
            None => NO_DESCRIPTOR,
        }
    }

    /// The descriptor in this block has this frame.
    pub fn set_frame(&mut self, block: u16, frame: u16)
        ensures { self.new ≡ with_notes self.old (slice_set self.old.periodic.notes block (record (note_at self.old.periodic.notes block) { frame = frame })) }
    {
        let note = self.note(block);
        if (block as usize) < self.notes.len() {
            self.notes[block as usize] = DescriptorNote { frame, ..note };
        }
    }

    /// Notes and writes a new descriptor, as `write_descriptor` does, and tells its block.
    pub fn write(
        &mut self,
        book: &RunBook,
        mem: &mut WordMem,
        desc: &EpDesc,
        slots: &Slots,
        seed: u8,
        runs: &[u16],
    ) -> u16
        requires slot { slots.now.slot ≤ slot_limit slots.now.split }
        requires max { desc.now.max ≤ 1024 }
        requires some { 1 ≤ desc.now.multi }
        requires multi { desc.now.multi ≤ 3 }
        requires port { desc.now.port ≤ 127 }
        requires stands { Stands (holding book.now mem.old) }
        ensures block { result ≡ slice_index runs.now 0 }
        ensures part { self.new ≡ with_notes self.old (slice_set self.old.periodic.notes result (descriptor_note slots.now (drop 1 runs.now))) }
        ensures memory { mem.new ≡ written_descriptor book.now mem.old desc.now (descriptor_note slots.now (drop 1 runs.now)) result seed (total_of slots.now) }
        ensures stands { Stands (holding book.now mem.new) }
    {
        write_descriptor(
            book,
            mem,
            self.notes.as_mut_slice(),
            desc,
            slots,
            seed,
            runs,
        )
    }
}
