ghost use Rattle.std.specs.Prelude.{◌≡◌, ◌≤◌, ◌<◌, ◌+◌, ◌-◌, ◌^◌, length, slice_get, slice_set, Some, true, false, [], IfSome};
ghost use Rattle.op_registers.specs.RegisterFile.{RegisterFile};
ghost use Rattle.mem_runs.specs.Book.{holding, Stands, store};
ghost use Rattle.drv_table.specs.Harvests.{reported};
ghost use Rattle.drv_table.specs.Harvesting.{goes_on};
ghost use Rattle.drv_periodic_table.specs.Periodic.{read_again};
ghost use Rattle.drv_jobs.specs.Clearing.{still_has, released_one, given_back, opened_again, reopened};
ghost use Rattle.drv_jobs.specs.HubRequests.{request_done, request_failed, name_at};
ghost use Rattle.ehci_driver.specs.JobEvents.{released_held};
ghost use Rattle.ehci_driver.specs.Turns.{parts};

use crate::driver::Driver;
use drv_harvests::{free_qtds_from, next_waiting};
use drv_table::{Endpoint, Mend, Transfer};
use usb_base::{DevAddr, EndCause, EpName, EpNum, Report, Way, What};
use word_mem::WordMem;

impl Driver {
    /// A word of a queue head is stored.
    pub(crate) fn store_overlay(&self, mem: &mut WordMem, word: Mend)
        requires { Stands (holding self.now.book mem.old) }
        ensures memory { mem.new ≡ store self.now.book mem.old word.queue word.at word.value }
        ensures stands { Stands (holding self.now.book mem.new) }
    {
        self.book.store(mem, word.queue, word.at, word.value);
    }

    /// FRINDEX was read once more than the driver's own work asks.
    pub(crate) fn note_frame(&mut self, frindex: u16)
        ensures { self.new ≡ record self.old {
          periodic = record self.old.periodic { removals = read_again frindex self.old.periodic.removals };
        } }
    {
        self.periodic.read(frindex);
    }

    /// The transfers of the endpoint of this number are given back, and it is open again.
    pub(crate) fn reopen(&mut self, mem: &mut WordMem, e: usize)
        requires stands { Stands (holding self.old.book mem.old) }
        requires room { 1 ≤ self.old.room.reports }
        ensures parts { (r : RegisterFile)
            → parts self.new r mem.new ≡ reopened (parts self.old r mem.old) e (slice_get self.old.endpoints e) }
        ensures stands { Stands (holding self.new.book mem.new) }
    {
        let Some(endpoint) = self.endpoint_at(e) else {
            return;
        };
        self.give_back(mem, e);
        self.open_again(e, &endpoint);
    }

    /// Each transfer of the endpoint that still has its blocks is given back.
    fn give_back(&mut self, mem: &mut WordMem, e: usize)
        requires { Stands (holding self.old.book mem.old) }
        ensures parts { (r : RegisterFile) → parts self.new r mem.new ≡ given_back (parts self.old r mem.old) e }
        ensures endpoints { self.new.endpoints ≡ self.old.endpoints }
        ensures room { self.new.room ≡ self.old.room }
        ensures stands { Stands (holding self.new.book mem.new) }
    {
        let count = self.transfers.len();
        for t in 0..count {
            self.release_if_held(mem, e, t);
        }
    }

    /// The transfer of this number is given back, if the endpoint still has it.
    fn release_if_held(&mut self, mem: &mut WordMem, e: usize, t: usize)
        requires { Stands (holding self.old.book mem.old) }
        ensures parts { (r : RegisterFile)
            → parts self.new r mem.new ≡ released_one (parts self.old r mem.old) e t (slice_get self.old.transfers t) }
        ensures endpoints { self.new.endpoints ≡ self.old.endpoints }
        ensures room { self.new.room ≡ self.old.room }
        ensures count { length self.new.transfers ≡ length self.old.transfers }
        ensures stands { Stands (holding self.new.book mem.new) }
    {
        let Some(transfer) = self.transfer_at(t) else {
            return;
        };
        if self.still_has(e, t, &transfer) {
            self.release_held(mem, t, &transfer);
        }
    }

    /// The transfer of this number is given back.
    fn release_held(&mut self, mem: &mut WordMem, t: usize, transfer: &Transfer)
        requires stands { Stands (holding self.old.book mem.old) }
        requires transfer { slice_get self.old.transfers t ≡ Some transfer.now }
        ensures parts { (r : RegisterFile) → parts self.new r mem.new ≡ released_held (parts self.old r mem.old) t transfer.now }
        ensures endpoints { self.new.endpoints ≡ self.old.endpoints }
        ensures room { self.new.room ≡ self.old.room }
        ensures count { length self.new.transfers ≡ length self.old.transfers }
        ensures stands { Stands (holding self.new.book mem.new) }
    {
        free_qtds_from(
            &mut self.book,
            &self.notes,
            mem,
            transfer.first,
            transfer.qtds,
        );
        self.transfers[t] = Transfer {
            reported: true,
            released: true,
            ..*transfer
        };
    }

    /// Whether the transfer is the endpoint's, wasn't given back, and doesn't wait for that.
    fn still_has(&self, e: usize, t: usize, transfer: &Transfer) -> bool
        ensures { result ≡ still_has self.now e t transfer.now }
    {
        if transfer.endpoint != e || transfer.released {
            return false;
        }
        !self.harvested.contains(&t)
    }

    /// The endpoint is open again, with nothing to harvest, and a line tells it.
    fn open_again(&mut self, e: usize, endpoint: &Endpoint)
        requires endpoint { slice_get self.old.endpoints e ≡ Some endpoint.now }
        requires room { 1 ≤ self.old.room.reports }
        ensures driver { self.new ≡ opened_again self.old e endpoint.now }
        ensures book { self.new.book ≡ self.old.book }
    {
        let open = Endpoint {
            next: None,
            ended: None,
            ..*endpoint
        };
        self.endpoints.write(e, open);
        self.tell(endpoint.desc.name, What::Clear);
    }

    /// One more line of the report, with no bytes; there is room for it.
    fn tell(&mut self, name: EpName, what: What)
        requires { 1 ≤ self.old.room.reports }
        ensures { self.new ≡ record (reported self.old what name []) {
          room = record self.old.room { reports = self.old.room.reports - 1 };
        } }
    {
        let from = self.store.len() as u32;
        self.reports.push_reserved(Report {
            name,
            what,
            from,
            len: 0,
        });
        self.room.reports -= 1;
    }
}

impl Driver {
    /// A request to a hub is done: it has no line, and the hub's endpoint goes on.
    pub(crate) fn end_request(
        &mut self,
        h: usize,
        t: usize,
        n: u16,
        endpoint: &Endpoint,
        transfer: &Transfer,
    )
        requires endpoint { slice_get self.old.endpoints h ≡ Some endpoint.now }
        requires transfer { slice_get self.old.transfers t ≡ Some transfer.now }
        requires open { transfer.now.reported ≡ false }
        requires few { h + 1 < 2 ^ 64 }
        ensures driver { self.new ≡ request_done self.old h t n endpoint.now transfer.now }
        ensures book { self.new.book ≡ self.old.book }
    {
        self.set_moved(transfer.place, n);
        self.pass_request(h, t, endpoint, transfer);
        self.serve(h);
    }

    /// The hub's endpoint goes on behind this request.
    fn pass_request(&mut self, h: usize, t: usize, endpoint: &Endpoint, transfer: &Transfer)
        requires endpoint { slice_get self.old.endpoints h ≡ Some endpoint.now }
        requires transfer { slice_get self.old.transfers t ≡ Some transfer.now }
        requires open { transfer.now.reported ≡ false }
        ensures driver { self.new ≡ goes_on (record self.old {
          transfers = slice_set self.old.transfers t (record transfer.now { reported = true });
        }) h t endpoint.now }
        ensures book { self.new.book ≡ self.old.book }
    {
        self.transfers[t] = Transfer {
            reported: true,
            ..*transfer
        };
        self.harvested.push_back_reserved(t);
        let next = next_waiting(&self.transfers, h, t);
        self.endpoints.write(h, Endpoint { next, ..*endpoint });
    }

    /// A request to a hub ended otherwise: the hub's endpoint ends with it, and a line of endpoint `e` tells it.
    pub(crate) fn fail_request(
        &mut self,
        e: usize,
        h: usize,
        t: usize,
        n: u16,
        endpoint: &Endpoint,
        transfer: &Transfer,
        cause: EndCause,
    )
        requires endpoint { slice_get self.old.endpoints h ≡ Some endpoint.now }
        requires transfer { slice_get self.old.transfers t ≡ Some transfer.now }
        requires open { transfer.now.reported ≡ false }
        requires few { h + 1 < 2 ^ 64 }
        requires room { 1 ≤ self.old.room.reports }
        ensures driver { self.new ≡ request_failed self.old e h t n endpoint.now transfer.now cause }
        ensures book { self.new.book ≡ self.old.book }
    {
        let name = self.name_at(e);
        self.set_moved(transfer.place, n);
        self.close_request(h, t, endpoint, transfer, cause);
        self.tell(name, What::ClearFailed(cause));
        self.serve(h);
    }

    /// The hub's endpoint ends with this request.
    fn close_request(
        &mut self,
        h: usize,
        t: usize,
        endpoint: &Endpoint,
        transfer: &Transfer,
        cause: EndCause,
    )
        requires endpoint { slice_get self.old.endpoints h ≡ Some endpoint.now }
        requires transfer { slice_get self.old.transfers t ≡ Some transfer.now }
        requires open { transfer.now.reported ≡ false }
        ensures driver { self.new ≡ record self.old {
          transfers = slice_set self.old.transfers t (record transfer.now { reported = true });
          endpoints = slice_set self.old.endpoints h (record endpoint.now { ended = Some cause });
        } }
        ensures book { self.new.book ≡ self.old.book }
    {
        self.transfers[t] = Transfer {
            reported: true,
            ..*transfer
        };
        let ended = Endpoint {
            ended: Some(cause),
            ..*endpoint
        };
        self.endpoints.write(h, ended);
    }

    /// The endpoint of this number; None exactly where there is none.
    pub(crate) fn endpoint_at(&self, e: usize) -> Option<Endpoint>
        ensures endpoint { result ≡ slice_get self.now.endpoints e }
        ensures few { IfSome result (λ _. e + 1 < 2 ^ 64) }
    {
        self.endpoints.get(e)
    }

    /// The transfer of this number; None exactly where there is none.
    pub(crate) fn transfer_at(&self, t: usize) -> Option<Transfer>
        ensures { result ≡ slice_get self.now.transfers t }
    {
        self.transfers.get(t).copied()
    }

    /// The name of the endpoint of this number.
    fn name_at(&self, e: usize) -> EpName
        ensures { result ≡ name_at self.now e }
    {
        match self.endpoints.get(e) {
            Some(endpoint) => endpoint.desc.name,
            None => EpName {
                addr: DevAddr::zero(),
                num: EpNum::zero(),
                way: Way::Ctl,
            },
        }
    }
}
