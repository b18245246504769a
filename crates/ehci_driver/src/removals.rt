ghost use Rattle.std.specs.Prelude.{◌≡◌, ◌≤◌, length, slice_get, true, false, Some};
ghost use Rattle.op_registers.specs.RegisterFile.{RegisterFile};
ghost use Rattle.mem_runs.specs.Book.{holding, Stands};
ghost use Rattle.drv_periodic_table.specs.Periodic.{read_again};
ghost use Rattle.drv_table.specs.Harvesting.{descriptor_told};
ghost use Rattle.drv_table.specs.Removals.{after_unlink, after_removed, after_descriptor, after_placed, free_placed, removed_with};
ghost use Rattle.drv_table.specs.Releases.{is_told};
ghost use Rattle.ehci_driver.specs.Turns.{parts, told_cancel};

use crate::driver::Driver;
use drv_endpoints::is_isochronous;
use drv_frames::{
    free_descriptor, free_placed, let_placed_go, report_descriptor, unlink_descriptor,
};
use drv_harvests::{is_told_at_release, next_waiting, report_cancel};
use drv_periodic_table::Removed;
use drv_table::{Endpoint, Transfer, Turn};
use word_mem::WordMem;

impl Driver {
    /// A descriptor was served: it is reported with the bytes of its slots, and is to be unlinked.
    pub(crate) fn tell_descriptor(
        &mut self,
        mem: &WordMem,
        e: usize,
        t: usize,
        endpoint: &Endpoint,
        transfer: &Transfer,
        errors: u8,
    )
        requires endpoint { slice_get self.old.endpoints e ≡ Some endpoint.now }
        requires transfer { slice_get self.old.transfers t ≡ Some transfer.now }
        requires open { transfer.now.reported ≡ false }
        ensures driver { self.new ≡ descriptor_told self.old mem.now e t endpoint.now transfer.now errors }
        ensures book { self.new.book ≡ self.old.book }
    {
        let next = next_waiting(&self.transfers, e, t);
        let note = self.periodic.note(transfer.first);
        report_descriptor(
            &mut self.reports,
            &mut self.store,
            mem,
            &note,
            transfer,
            endpoint.desc.name,
            errors,
        );
        self.transfers[t] = Transfer {
            reported: true,
            ..*transfer
        };
        self.endpoints.write(e, Endpoint { next, ..*endpoint });
        self.periodic.push_unlink(t);
    }

    /// The first harvested descriptor that is still linked leaves its frame.
    pub(crate) fn unlink(&mut self, mem: &mut WordMem, t: usize)
        requires stands { Stands (holding self.old.book mem.old) }
        requires waits { 1 ≤ length self.old.periodic.unlinks }
        ensures driver { (r : RegisterFile) → self.new ≡ (after_unlink (parts self.old r mem.old) t (slice_get self.old.transfers t)).driver }
        ensures memory { (r : RegisterFile) → mem.new ≡ (after_unlink (parts self.old r mem.old) t (slice_get self.old.transfers t)).memory }
        ensures stands { Stands (holding self.new.book mem.new) }
    {
        if t >= self.transfers.len() {
            return;
        }
        let block = self.transfers[t].first;
        unlink_descriptor(&self.book, mem, &mut self.periodic, block);
        self.periodic.pop_unlink();
        self.periodic.push_removal(Removed::Descriptor(t));
        self.turn = Turn::Harvest;
    }

    /// FRINDEX was read.
    pub(crate) fn read_frame(&mut self, frindex: u16)
        ensures { self.new ≡ record self.old { turn = Turn.Harvest; periodic = record self.old.periodic { status_next = true; removals = read_again frindex self.old.periodic.removals } } }
    {
        self.periodic.read(frindex);
        self.periodic.set_reads_status(true);
        self.turn = Turn::Harvest;
    }

    /// What left the frame list is given back.
    pub(crate) fn release_removed(&mut self, mem: &mut WordMem, what: Removed)
        requires stands { Stands (holding self.old.book mem.old) }
        ensures driver { (r : RegisterFile) → self.new ≡ (after_removed (parts self.old r mem.old) what).driver }
        ensures memory { (r : RegisterFile) → mem.new ≡ (after_removed (parts self.old r mem.old) what).memory }
        ensures stands { Stands (holding self.new.book mem.new) }
    {
        match what {
            Removed::Descriptor(t) => self.release_descriptor(mem, t),
            Removed::Endpoint(e) => self.release_placed(mem, e),
        }
    }

    /// The blocks of a descriptor are given back.
    fn release_descriptor(&mut self, mem: &mut WordMem, t: usize)
        requires stands { Stands (holding self.old.book mem.old) }
        ensures driver { (r : RegisterFile) → self.new ≡ (after_descriptor (parts self.old r mem.old) t (slice_get self.old.transfers t)).driver }
        ensures memory { (r : RegisterFile) → mem.new ≡ (after_descriptor (parts self.old r mem.old) t (slice_get self.old.transfers t)).memory }
        ensures stands { Stands (holding self.new.book mem.new) }
    {
        if t >= self.transfers.len() {
            return;
        }
        let transfer = self.transfers[t];
        free_descriptor(&mut self.book, mem, &self.periodic, transfer.first);
        self.transfers[t] = Transfer {
            released: true,
            ..transfer
        };
        self.periodic.pop_removal();
        self.turn = Turn::Harvest;
    }

    /// The blocks of a periodic endpoint are given back, and its placement leaves the plan.
    fn release_placed(&mut self, mem: &mut WordMem, e: usize)
        requires stands { Stands (holding self.old.book mem.old) }
        ensures driver { (r : RegisterFile) → self.new ≡ (after_placed (parts self.old r mem.old) e (slice_get self.old.endpoints e)).driver }
        ensures memory { (r : RegisterFile) → mem.new ≡ (after_placed (parts self.old r mem.old) e (slice_get self.old.endpoints e)).memory }
        ensures stands { Stands (holding self.new.book mem.new) }
    {
        let Some(endpoint) = self.endpoints.get(e) else {
            return;
        };
        if is_told_at_release(&endpoint) {
            self.release_placed_told(mem, e, &endpoint);
        } else {
            self.release_placed_untold(mem, e, &endpoint);
        }
    }

    /// The same, with a line of the report.
    fn release_placed_told(&mut self, mem: &mut WordMem, e: usize, endpoint: &Endpoint)
        requires stands { Stands (holding self.old.book mem.old) }
        requires endpoint { slice_get self.old.endpoints e ≡ Some endpoint.now }
        requires told { is_told endpoint.now ≡ true }
        ensures driver { self.new ≡ removed_with (told_cancel self.old mem.old e endpoint.now) e endpoint.now true (free_placed self.old e endpoint.now (holding self.old.book mem.old)).book }
        ensures memory { mem.new ≡ (free_placed self.old e endpoint.now (holding self.old.book mem.old)).memory }
        ensures stands { Stands (holding self.new.book mem.new) }
    {
        report_cancel(
            &mut self.reports,
            &mut self.store,
            mem,
            &self.notes,
            &self.transfers,
            e,
            endpoint,
        );
        free_placed(
            &mut self.book,
            mem,
            &self.notes,
            &self.periodic,
            e,
            endpoint,
            &self.transfers,
        );
        let iso = is_isochronous(endpoint.desc.kind);
        let_placed_go(&mut self.transfers, e, iso, true);
        let gone = Endpoint {
            gone: true,
            ..*endpoint
        };
        self.endpoints.write(e, gone);
        self.periodic.withdraw(e as u32);
        self.periodic.pop_removal();
        self.turn = Turn::Harvest;
    }

    /// The same for an endpoint that had ended before, without a line.
    fn release_placed_untold(&mut self, mem: &mut WordMem, e: usize, endpoint: &Endpoint)
        requires stands { Stands (holding self.old.book mem.old) }
        requires endpoint { slice_get self.old.endpoints e ≡ Some endpoint.now }
        ensures driver { self.new ≡ removed_with self.old e endpoint.now false (free_placed self.old e endpoint.now (holding self.old.book mem.old)).book }
        ensures memory { mem.new ≡ (free_placed self.old e endpoint.now (holding self.old.book mem.old)).memory }
        ensures stands { Stands (holding self.new.book mem.new) }
    {
        free_placed(
            &mut self.book,
            mem,
            &self.notes,
            &self.periodic,
            e,
            endpoint,
            &self.transfers,
        );
        let iso = is_isochronous(endpoint.desc.kind);
        let_placed_go(&mut self.transfers, e, iso, false);
        let gone = Endpoint {
            gone: true,
            ..*endpoint
        };
        self.endpoints.write(e, gone);
        self.periodic.withdraw(e as u32);
        self.periodic.pop_removal();
        self.turn = Turn::Harvest;
    }
}
