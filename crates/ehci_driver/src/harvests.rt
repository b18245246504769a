ghost use Rattle.std.specs.Prelude.{◌≡◌, ◌≤◌, ◌<◌, ◌+◌, ◌-◌, ◌^◌, length, slice_get, false, Some};
ghost use Rattle.drv_table.specs.Harvests.{noted, end_of, is_stall};
ghost use Rattle.drv_table.specs.Harvesting.{after_harvest, harvested_as, served, moved_on, after_end, goes_on, stalled, behind, behind_one};
ghost use Rattle.ehci_driver.specs.Turns.{told_now};

use crate::driver::Driver;
use drv_harvests::{end_cause, next_waiting, owe_stores, report, tells_stall, waits_at};
use drv_table::{Endpoint, Found, QtdNote, Transfer, Turn};
use usb_base::{EndCause, EpName, Report, What};
use word_mem::WordMem;

impl Driver {
    /// One harvest: what the token tells of the endpoint's transfer.
    pub(crate) fn harvest(&mut self, mem: &WordMem, e: usize, t: usize, found: Found)
        ensures driver { self.new ≡ after_harvest self.old mem.now e t found (slice_get self.old.endpoints e) (slice_get self.old.transfers t) }
        ensures book { self.new.book ≡ self.old.book }
    {
        let Some(endpoint) = self.endpoints.get(e) else {
            return;
        };
        self.harvest_of(mem, e, t, &endpoint, found);
    }

    /// One harvest of this endpoint.
    fn harvest_of(&mut self, mem: &WordMem, e: usize, t: usize, endpoint: &Endpoint, found: Found)
        requires endpoint { slice_get self.old.endpoints e ≡ Some endpoint.now }
        requires few { e + 1 < 2 ^ 64 }
        ensures driver { self.new ≡ after_harvest self.old mem.now e t found (Some endpoint.now) (slice_get self.old.transfers t) }
        ensures book { self.new.book ≡ self.old.book }
    {
        if t >= self.transfers.len() {
            return;
        }
        let transfer = self.transfers[t];
        if !waits_at(&transfer, e) {
            return;
        }
        self.read_token(mem, e, t, endpoint, &transfer, found);
        self.serve(e);
    }

    /// What the token tells of a transfer that waits.
    fn read_token(
        &mut self,
        mem: &WordMem,
        e: usize,
        t: usize,
        endpoint: &Endpoint,
        transfer: &Transfer,
        found: Found,
    )
        requires endpoint { slice_get self.old.endpoints e ≡ Some endpoint.now }
        requires transfer { slice_get self.old.transfers t ≡ Some transfer.now }
        requires open { transfer.now.reported ≡ false }
        ensures driver { self.new ≡ harvested_as self.old mem.now e t endpoint.now transfer.now found }
        ensures book { self.new.book ≡ self.old.book }
    {
        match found {
            Found::Active => {}
            Found::Moved(n) => self.move_on(t, transfer, n),
            Found::Served(errors) => self.tell_descriptor(mem, e, t, endpoint, transfer, errors),
            Found::Ended(n, what) => self.end_with(mem, e, t, endpoint, transfer, n, what),
        }
    }

    /// The transfer ends with this many bytes in its last qTD that was read.
    fn end_with(
        &mut self,
        mem: &WordMem,
        e: usize,
        t: usize,
        endpoint: &Endpoint,
        transfer: &Transfer,
        n: u16,
        what: What,
    )
        requires endpoint { slice_get self.old.endpoints e ≡ Some endpoint.now }
        requires transfer { slice_get self.old.transfers t ≡ Some transfer.now }
        requires open { transfer.now.reported ≡ false }
        ensures driver { self.new ≡ harvested_as self.old mem.now e t endpoint.now transfer.now (Found.Ended n what) }
        ensures book { self.new.book ≡ self.old.book }
    {
        self.set_moved(transfer.place, n);
        self.end(mem, e, t, endpoint, transfer, what);
    }

    /// The endpoint was served, and leaving work has the turn.
    pub(crate) fn serve(&mut self, e: usize)
        requires { e + 1 < 2 ^ 64 }
        ensures driver { self.new ≡ served self.old e }
        ensures book { self.new.book ≡ self.old.book }
    {
        self.place = e + 1;
        self.turn = Turn::Leaving;
    }

    /// A qTD is done, and its transfer goes on.
    #[tactic(auto, using(std::proofs::lemmas::Grind::common_steps, crate::proofs::Lines::can_tell, crate::proofs::Lines::told_rooms, crate::proofs::Counts::kept_lines, crate::proofs::Counts::kept_bytes))]
    fn move_on(&mut self, t: usize, transfer: &Transfer, n: u16)
        requires within { t < length self.old.transfers }
        requires there { slice_get self.old.transfers t ≡ Some transfer.now }
        ensures driver { self.new ≡ moved_on self.old t transfer.now n }
        ensures book { self.new.book ≡ self.old.book }
        ensures endpoints { length self.new.endpoints ≡ length self.old.endpoints }
    {
        let next = self.note(transfer.place).next;
        self.set_moved(transfer.place, n);
        self.transfers[t] = Transfer {
            place: next,
            left: transfer.left.saturating_sub(1),
            ..*transfer
        };
    }

    /// This many bytes were moved in the qTD of this block.
    pub(crate) fn set_moved(&mut self, block: u16, n: u16)
        ensures { self.new ≡ record self.old { notes = noted self.old.notes block n } }
    {
        if block as usize >= self.notes.len() {
            return;
        }
        self.notes[block as usize] = QtdNote {
            moved: n,
            ..self.note(block)
        };
    }

    /// The transfer ends, and is reported with the bytes that were moved in it.
    fn end(
        &mut self,
        mem: &WordMem,
        e: usize,
        t: usize,
        endpoint: &Endpoint,
        transfer: &Transfer,
        what: What,
    )
        requires endpoint { slice_get self.old.endpoints e ≡ Some endpoint.now }
        requires transfer { slice_get self.old.transfers t ≡ Some transfer.now }
        requires open { transfer.now.reported ≡ false }
        ensures driver { self.new ≡ after_end (told_now self.old mem.now t transfer.now what endpoint.now) e t endpoint.now (is_stall what) (end_of endpoint.now.desc.kind what) }
        ensures book { self.new.book ≡ self.old.book }
    {
        match end_cause(endpoint.desc.kind, what) {
            Some(cause) => self.close(mem, e, t, endpoint, transfer, what, cause),
            None => {
                if tells_stall(what) {
                    self.stall(mem, e, t, endpoint, transfer, what);
                } else {
                    self.go_on(mem, e, t, endpoint, transfer, what);
                }
            }
        }
    }

    /// The endpoint ends with its transfer, whose blocks it keeps.
    #[tactic(auto, using(std::proofs::lemmas::Grind::common_steps, crate::proofs::Lines::can_tell, crate::proofs::Lines::told_rooms, crate::proofs::Counts::kept_lines, crate::proofs::Counts::kept_bytes))]
    fn close(
        &mut self,
        mem: &WordMem,
        e: usize,
        t: usize,
        endpoint: &Endpoint,
        transfer: &Transfer,
        what: What,
        cause: EndCause,
    )
        requires endpoint { slice_get self.old.endpoints e ≡ Some endpoint.now }
        requires transfer { slice_get self.old.transfers t ≡ Some transfer.now }
        requires open { transfer.now.reported ≡ false }
        ensures driver { self.new ≡ after_end (told_now self.old mem.now t transfer.now what endpoint.now) e t endpoint.now false (Some cause) }
        ensures book { self.new.book ≡ self.old.book }
    {
        let name = endpoint.desc.name;
        report(
            &mut self.reports,
            &mut self.store,
            mem,
            &self.notes,
            transfer,
            what,
            name,
        );
        self.transfers[t] = Transfer {
            reported: true,
            ..*transfer
        };
        let ended = Endpoint {
            ended: Some(cause),
            ..*endpoint
        };
        self.endpoints.write(e, ended);
    }

    /// The blocks of the transfer are to be given back, and the endpoint goes on with its next transfer.
    #[tactic(auto, using(std::proofs::lemmas::Grind::common_steps, crate::proofs::Lines::can_tell, crate::proofs::Lines::told_rooms, crate::proofs::Counts::kept_lines, crate::proofs::Counts::kept_bytes))]
    fn go_on(
        &mut self,
        mem: &WordMem,
        e: usize,
        t: usize,
        endpoint: &Endpoint,
        transfer: &Transfer,
        what: What,
    )
        requires endpoint { slice_get self.old.endpoints e ≡ Some endpoint.now }
        requires transfer { slice_get self.old.transfers t ≡ Some transfer.now }
        requires open { transfer.now.reported ≡ false }
        ensures driver { self.new ≡ goes_on (told_now self.old mem.now t transfer.now what endpoint.now) e t endpoint.now }
        ensures book { self.new.book ≡ self.old.book }
    {
        let name = endpoint.desc.name;
        report(
            &mut self.reports,
            &mut self.store,
            mem,
            &self.notes,
            transfer,
            what,
            name,
        );
        self.transfers[t] = Transfer {
            reported: true,
            ..*transfer
        };
        self.harvested.push_back_reserved(t);
        let next = next_waiting(&self.transfers, e, t);
        self.endpoints.write(e, Endpoint { next, ..*endpoint });
    }

    /// A request was stalled: so are those queued behind it, and the queue head is owed three stores.
    #[tactic(auto, using(std::proofs::lemmas::Grind::common_steps, crate::proofs::Lines::can_tell, crate::proofs::Lines::told_rooms, crate::proofs::Counts::kept_lines, crate::proofs::Counts::kept_bytes))]
    fn stall(
        &mut self,
        mem: &WordMem,
        e: usize,
        t: usize,
        endpoint: &Endpoint,
        transfer: &Transfer,
        what: What,
    )
        requires endpoint { slice_get self.old.endpoints e ≡ Some endpoint.now }
        requires transfer { slice_get self.old.transfers t ≡ Some transfer.now }
        requires open { transfer.now.reported ≡ false }
        ensures driver { self.new ≡ stalled (told_now self.old mem.now t transfer.now what endpoint.now) e t endpoint.now }
        ensures book { self.new.book ≡ self.old.book }
    {
        let name = endpoint.desc.name;
        report(
            &mut self.reports,
            &mut self.store,
            mem,
            &self.notes,
            transfer,
            what,
            name,
        );
        self.transfers[t] = Transfer {
            reported: true,
            ..*transfer
        };
        self.harvested.push_back_reserved(t);
        let stalled = Endpoint {
            next: None,
            ..*endpoint
        };
        self.endpoints.write(e, stalled);
        owe_stores(&mut self.mends, endpoint);
        self.stall_behind(e, &endpoint.desc.name, t + 1);
    }

    /// The requests from number `first` on that wait at the endpoint end with the stalled one.
    fn stall_behind(&mut self, e: usize, name: &EpName, first: usize)
        requires { first ≤ length self.old.transfers }
        ensures driver { self.new ≡ behind self.old e name.now first (length self.old.transfers - first) }
        ensures book { self.new.book ≡ self.old.book }
    {
        let count = self.transfers.len();
        for k in first..count {
            self.stall_one(e, name, k);
        }
    }

    /// The request of this number ends with the stalled one, if it waits at the endpoint.
    #[tactic(auto, using(std::proofs::lemmas::Grind::common_steps, crate::proofs::Lines::can_tell, crate::proofs::Lines::told_rooms, crate::proofs::Counts::kept_lines, crate::proofs::Counts::kept_bytes))]
    fn stall_one(&mut self, e: usize, name: &EpName, k: usize)
        ensures driver { self.new ≡ behind_one self.old e name.now k (slice_get self.old.transfers k) }
        ensures book { self.new.book ≡ self.old.book }
        ensures count { length self.new.transfers ≡ length self.old.transfers }
    {
        if k >= self.transfers.len() {
            return;
        }
        let transfer = self.transfers[k];
        if !waits_at(&transfer, e) {
            return;
        }
        let from = self.store.len();
        self.reports.push_reserved(Report {
            name: *name,
            what: What::Halt(EndCause::Stall),
            from: from as u32,
            len: 0,
        });
        self.transfers[k] = Transfer {
            reported: true,
            ..transfer
        };
        self.harvested.push_back_reserved(k);
    }
}
