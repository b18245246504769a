ghost use Rattle.std.specs.Prelude.{◌≡◌, slice_get, Some};
ghost use Rattle.drv_table.specs.Rows.{driver_row, turn_row};
ghost use Rattle.drv_table.specs.Commands.{next_row, link_row};
ghost use Rattle.drv_table.specs.Leaving.{leaving_row, removal_row, reading_for, removes, bell_row, tells_advance};
ghost use Rattle.drv_table.specs.Harvesting.{harvest_row, worker_row, reading_row, next_worker, found_of};
ghost use Rattle.drv_periodic.specs.Periodic.{next_store};
ghost use Rattle.drv_table.specs.Harvests.{note_at};
ghost use Rattle.ehci_driver.specs.Turns.{parts, later_row};

use crate::driver::Driver;
use drv_endpoints::{event_count, links, row_of_command};
use drv_harvests::{found, note_of, token_at};
use drv_iso::descriptor_found;
use drv_table::{Bell, Command, DriverRow, Found, QtdNote, Sort, Transfer, Turn};
use op_registers::Registers;
use word_mem::WordMem;

/// The offset of USBSTS (EHCI 1.0, 2.3.2).
const STATUS: u32 = 0x04;

/// Async Advance in USBSTS.
const ADVANCE: u32 = 0x20;

impl Driver {
    /// Which row the next event is.
    pub fn row(&self, regs: &Registers, mem: &WordMem) -> DriverRow
        ensures { result ≡ driver_row (parts self.now regs.now mem.now) }
    {
        match &self.command {
            // Its stores belong together, so no other work comes between them (EHCI 1.0, 4.8.1 and 4.10.2).
            Some(command) => self.next_row(command),
            None => match self.turn {
                // By turns, so that neither work keeps the other waiting.
                Turn::Leaving => self.leaving_first(regs, mem),
                Turn::Harvest => self.harvest_first(regs, mem),
            },
        }
    }

    /// The next event of the unfinished command: one of its own, or else the next store of the frame list.
    fn next_row(&self, command: &Command) -> DriverRow
        ensures { result ≡ next_row self.now command.now }
    {
        if links(command) && self.made >= event_count(command) {
            return self.link_row();
        }
        row_of_command(command, self.made)
    }

    /// The next store of the frame list.
    fn link_row(&self) -> DriverRow
        ensures { result ≡ link_row (next_store self.now.periodic.list) }
    {
        match self.periodic.next_store() {
            Some(store) => DriverRow::Store(store.block, store.at, store.value),
            None => DriverRow::Rest,
        }
    }

    fn leaving_first(&self, regs: &Registers, mem: &WordMem) -> DriverRow
        ensures { result ≡ turn_row Turn.Leaving (leaving_row self.now regs.now) (harvest_row self.now mem.now) }
    {
        if let Some(row) = self.leaving_row(regs) {
            return row;
        }
        match self.harvest_row(mem) {
            Some(row) => row,
            None => DriverRow::Rest,
        }
    }

    fn harvest_first(&self, regs: &Registers, mem: &WordMem) -> DriverRow
        ensures { result ≡ turn_row Turn.Harvest (leaving_row self.now regs.now) (harvest_row self.now mem.now) }
    {
        if let Some(row) = self.harvest_row(mem) {
            return row;
        }
        match self.leaving_row(regs) {
            Some(row) => row,
            None => DriverRow::Rest,
        }
    }

    /// The first of the leaving work that there is.
    fn leaving_row(&self, regs: &Registers) -> Option<DriverRow>
        ensures { result ≡ leaving_row self.now regs.now }
    {
        // A stalled control endpoint waits for it with all its transfers (EHCI 1.0, 4.10.3; USB 2.0, 8.5.3.4).
        if let Some(mend) = self.mends.front() {
            return Some(DriverRow::Mend(*mend));
        }
        // The controller is done with its qTDs, so no doorbell is needed (EHCI 1.0, 4.10.4).
        if let Some(t) = self.harvested.front() {
            return Some(DriverRow::ReleaseTransfer(*t));
        }
        self.leaving_frames(regs)
    }

    /// The first of what leaves the frame list, of the batch that was cleared, or of what the registers are waited for.
    fn leaving_frames(&self, regs: &Registers) -> Option<DriverRow>
        ensures { result ≡ later_row self.now regs.now }
    {
        // The slots are served, but the frame's chain still leads here (EHCI 1.0, 4.7.1).
        if let Some(t) = self.periodic.first_unlink() {
            return Some(DriverRow::Unlink(t));
        }
        // Async Advance was heard: the controller holds nothing of this endpoint (EHCI 1.0, 4.8.2).
        if let Some(e) = self.cleared.front() {
            return Some(DriverRow::ReleaseEndpoint(*e));
        }
        if let Some(row) = self.removal_row() {
            return Some(row);
        }
        self.bell_row(regs)
    }

    /// The release of what left the frame list first, once its boundary was seen.
    fn removal_row(&self) -> Option<DriverRow>
        ensures { result ≡ removal_row (slice_get self.now.periodic.removals 0) }
    {
        match self.periodic.first_removal() {
            Some(removal) => {
                // Until the frame is over the controller may have it in hand (EHCI 1.0, 4.6).
                if removal.boundary.is_seen() {
                    Some(DriverRow::ReleaseRemoved(removal.what))
                } else {
                    None
                }
            }
            None => None,
        }
    }

    /// The reading of a register for which leaving work waits.
    fn reading_for(&self, regs: &Registers, rung: bool) -> Option<DriverRow>
        ensures { result ≡ reading_for self.now regs.now rung (removes self.now) }
    {
        match (rung, self.periodic.removes()) {
            (false, false) => None,
            // The answer to the doorbell stands in USBSTS (EHCI 1.0, 2.3.2 and 4.8.2).
            (true, false) => Some(DriverRow::ReadStatus(reads_advance(regs))),
            // FRINDEX tells when the frame is over (EHCI 1.0, 2.3.4).
            (false, true) => Some(DriverRow::ReadFrame(regs.frame_index())),
            (true, true) => {
                // Both are waited for: each in turn.
                if self.periodic.reads_status() {
                    Some(DriverRow::ReadStatus(reads_advance(regs)))
                } else {
                    Some(DriverRow::ReadFrame(regs.frame_index()))
                }
            }
        }
    }

    /// What the doorbell wants.
    fn bell_row(&self, regs: &Registers) -> Option<DriverRow>
        ensures { result ≡ bell_row self.now regs.now self.now.bell }
    {
        match self.bell {
            // Async Advance is cleared by a 1, and only then may the doorbell be set again (EHCI 1.0, 2.3.2).
            Bell::Heard => Some(DriverRow::ClearAdvance),
            // The doorbell isn't set again while it is unanswered (EHCI 1.0, 4.8.2).
            Bell::Rung => self.reading_for(regs, true),
            Bell::Quiet => {
                // One doorbell for all that left the ring so far (EHCI 1.0, 4.8.2).
                if self.waiting.is_empty() {
                    self.reading_for(regs, false)
                } else {
                    Some(DriverRow::RingBell)
                }
            }
        }
    }

    /// The next reading of a token.
    fn harvest_row(&self, mem: &WordMem) -> Option<DriverRow>
        ensures { result ≡ harvest_row self.now mem.now }
    {
        match self.next_worker() {
            Some(e) => self.worker_row(mem, e),
            None => None,
        }
    }

    fn worker_row(&self, mem: &WordMem, e: usize) -> Option<DriverRow>
        ensures { result ≡ worker_row self.now mem.now (Some e) }
    {
        match self.endpoints.get(e) {
            Some(endpoint) => match endpoint.next {
                Some(t) => self.reading_row(mem, e, t),
                None => None,
            },
            None => None,
        }
    }

    fn reading_row(&self, mem: &WordMem, e: usize, t: usize) -> Option<DriverRow>
        ensures { result ≡ reading_row self.now mem.now e t (slice_get self.now.transfers t) }
    {
        match self.transfers.get(t) {
            None => None,
            Some(transfer) => {
                if transfer.endpoint == e && !transfer.reported {
                    Some(DriverRow::Harvest(e, t, self.found_of(mem, transfer)))
                } else {
                    None
                }
            }
        }
    }

    /// What is found of a transfer.
    fn found_of(&self, mem: &WordMem, transfer: &Transfer) -> Found
        ensures { result ≡ found_of self.now mem.now transfer.now transfer.now.sort }
    {
        match transfer.sort {
            Sort::Descriptor => {
                let note = self.periodic.note(transfer.first);
                descriptor_found(mem, &note, transfer.first)
            }
            Sort::Get | Sort::Put | Sort::Request => {
                let note = self.note(transfer.place);
                let token = token_at(mem, transfer.place);
                found(transfer.sort, transfer.left <= 1, &note, &token)
            }
        }
    }

    /// What is known of the qTD in this block.
    pub(crate) fn note(&self, block: u16) -> QtdNote
        ensures { result ≡ note_at self.now.notes block }
    {
        note_of(&self.notes, block)
    }

    /// The first endpoint with something to harvest, from the present place on, and round to the first.
    fn next_worker(&self) -> Option<usize>
        ensures { result ≡ next_worker self.now }
    {
        if let Some(e) = self.endpoints.next_from(self.place) {
            return Some(e);
        }
        self.endpoints.next_from(0)
    }
}

/// Whether USBSTS tells Async Advance.
fn reads_advance(regs: &Registers) -> bool
    ensures { result ≡ tells_advance regs.now }
{
    match regs.driver_read(STATUS) {
        Some(status) => status & ADVANCE == ADVANCE,
        None => false,
    }
}
