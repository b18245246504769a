ghost use Rattle.std.specs.Prelude.{◌≡◌, slice_get, true, false, Some};
ghost use Rattle.mem_runs.specs.Book.{holding, Stands};
ghost use Rattle.drv_table.specs.Rows.{after_driver_row};
ghost use Rattle.drv_table.specs.Releases.{is_told, gone_with, free_endpoint};
ghost use Rattle.op_registers.specs.RegisterFile.{RegisterFile};
ghost use Rattle.drv_table.specs.declared.rows.DriverRow.TheVariants.{ReleaseTransfer, ReleaseEndpoint};
ghost use Rattle.ehci_driver.specs.Turns.{parts, told_cancel};

use crate::driver::Driver;
use drv_harvests::{
    free_qtds_from, free_runs_at, free_transfers_of, is_told_at_release, let_all_go, report_cancel,
};
use drv_table::{Endpoint, Transfer, Turn};
use word_mem::WordMem;

impl Driver {
    /// The blocks of a harvested transfer are given back.
    pub(crate) fn release_transfer(&mut self, mem: &mut WordMem, t: usize)
        requires { Stands (holding self.old.book mem.old) }
        ensures driver { (r : RegisterFile) → self.new ≡ (after_driver_row (ReleaseTransfer t) (parts self.old r mem.old)).driver }
        ensures memory { (r : RegisterFile) → mem.new ≡ (after_driver_row (ReleaseTransfer t) (parts self.old r mem.old)).memory }
        ensures stands { Stands (holding self.new.book mem.new) }
    {
        if t >= self.transfers.len() {
            return;
        }
        let transfer = self.transfers[t];
        free_qtds_from(
            &mut self.book,
            &self.notes,
            mem,
            transfer.first,
            transfer.qtds,
        );
        self.transfers[t] = Transfer {
            released: true,
            ..transfer
        };
        self.harvested.pop_front();
        self.turn = Turn::Harvest;
    }
}

impl Driver {
    /// The blocks of a cancelled endpoint are given back.
    pub(crate) fn release_endpoint(&mut self, mem: &mut WordMem, e: usize)
        requires { Stands (holding self.old.book mem.old) }
        ensures driver { (r : RegisterFile) → self.new ≡ (after_driver_row (ReleaseEndpoint e) (parts self.old r mem.old)).driver }
        ensures memory { (r : RegisterFile) → mem.new ≡ (after_driver_row (ReleaseEndpoint e) (parts self.old r mem.old)).memory }
        ensures stands { Stands (holding self.new.book mem.new) }
    {
        let Some(endpoint) = self.endpoints.get(e) else {
            return;
        };
        if is_told_at_release(&endpoint) {
            self.release_told(mem, e, &endpoint);
        } else {
            self.release_untold(mem, e, &endpoint);
        }
    }

    /// The same, with a line of the report: all bytes moved of its transfers that weren't reported.
    fn release_told(&mut self, mem: &mut WordMem, e: usize, endpoint: &Endpoint)
        requires stands { Stands (holding self.old.book mem.old) }
        requires endpoint { slice_get self.old.endpoints e ≡ Some endpoint.now }
        requires told { is_told endpoint.now ≡ true }
        ensures driver { self.new ≡ gone_with (told_cancel self.old mem.old e endpoint.now) e endpoint.now true (free_endpoint self.old e endpoint.now (holding self.old.book mem.old)).book }
        ensures memory { mem.new ≡ (free_endpoint self.old e endpoint.now (holding self.old.book mem.old)).memory }
        ensures stands { Stands (holding self.new.book mem.new) }
    {
        report_cancel(
            &mut self.reports,
            &mut self.store,
            mem,
            &self.notes,
            &self.transfers,
            e,
            endpoint,
        );
        free_runs_at(&mut self.book, mem, &[endpoint.queue, endpoint.dummy]);
        free_transfers_of(&mut self.book, &self.notes, mem, e, &self.transfers);
        let_all_go(&mut self.transfers, e, true);
        let gone = Endpoint {
            gone: true,
            ..*endpoint
        };
        self.endpoints.write(e, gone);
        self.cleared.pop_front();
        self.turn = Turn::Harvest;
    }

    /// The same for an endpoint that had ended before, without a line.
    fn release_untold(&mut self, mem: &mut WordMem, e: usize, endpoint: &Endpoint)
        requires stands { Stands (holding self.old.book mem.old) }
        requires endpoint { slice_get self.old.endpoints e ≡ Some endpoint.now }
        ensures driver { self.new ≡ gone_with self.old e endpoint.now false (free_endpoint self.old e endpoint.now (holding self.old.book mem.old)).book }
        ensures memory { mem.new ≡ (free_endpoint self.old e endpoint.now (holding self.old.book mem.old)).memory }
        ensures stands { Stands (holding self.new.book mem.new) }
    {
        free_runs_at(&mut self.book, mem, &[endpoint.queue, endpoint.dummy]);
        free_transfers_of(&mut self.book, &self.notes, mem, e, &self.transfers);
        let_all_go(&mut self.transfers, e, false);
        let gone = Endpoint {
            gone: true,
            ..*endpoint
        };
        self.endpoints.write(e, gone);
        self.cleared.pop_front();
        self.turn = Turn::Harvest;
    }
}
