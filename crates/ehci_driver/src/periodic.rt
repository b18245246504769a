ghost use Rattle.std.specs.Prelude.{◌≡◌, ◌≤◌, ◌*◌, drop, slice_get, Some, Ok, Err, IfOk, IfErr, true};
ghost use Rattle.mem_runs.specs.Book.{holding, Stands};
ghost use Rattle.bandwidth.specs.Placements.{IsWant};
ghost use Rattle.drv_periodic_table.specs.Periodic.{want_of, is_periodic};
ghost use Rattle.drv_periodic_table.specs.Descriptors.{slot_limit};
ghost use Rattle.drv_table.specs.Kinds.{is_iso};
ghost use Rattle.drv_frames.specs.Places.{started};
ghost use Rattle.ehci_driver.specs.Standing.{standing, plan_answer, iso_answer, taken_descriptors, entered_descriptors};

use crate::driver::Driver;
use drv_endpoints::{is_isochronous, or_first};
use drv_frames::{
    blocks_from, new_placed, place_endpoint, room_for_descriptors, spans_too_long,
    write_descriptors,
};
use drv_iso::{slots_of, take_descriptors, total_bytes};
use drv_table::{Command, Endpoint, Slots};
use usb_base::{EpDesc, EpKind, EpName, OfferError};
use word_mem::WordMem;

impl Driver {
    /// The open of a periodic endpoint: its placement is asked of the plan (EHCI 1.0, 4.6; USB 2.0, 5.6.4 and 5.7.4).
    ///
    /// # Errors
    ///
    /// `NoPlacement` where every allowed placement breaks a budget, `NoBlocks` where a run isn't found. Nothing changes then.
    pub(crate) fn plan_open(&mut self, desc: &EpDesc, mem: &mut WordMem) -> Result<(), OfferError>
        requires stands { Stands (holding self.old.book mem.old) }
        requires room { 1 ≤ self.old.room.endpoints }
        requires max { desc.now.max ≤ 1024 }
        requires port { desc.now.port ≤ 127 }
        requires kind { is_periodic desc.now.kind ≡ true }
        requires want { IsWant (want_of 0 desc.now) }
        ensures accepted { IfOk result (λ _. plan_answer self.old mem.old desc.now ≡ Ok (standing self.new mem.new)) }
        ensures refused { IfErr result (λ why. plan_answer self.old mem.old desc.now ≡ Err why) }
        ensures same { IfErr result (λ _. (self.new ≡ self.old) × (mem.new ≡ mem.old)) }
        ensures stands { Stands (holding self.new.book mem.new) }
    {
        let e = self.endpoints.as_slice().len() as u32;
        match place_endpoint(&mut self.book, mem, &mut self.periodic, e, desc) {
            Ok(place) => {
                self.endpoints.push(&new_placed(desc, &place));
                self.room.endpoints -= 1;
                self.start_chain(desc.kind);
                Ok(())
            }
            Err(why) => Err(why),
        }
    }

    /// The queue head of a new periodic endpoint is to be linked, where it has one.
    fn start_chain(&mut self, kind: EpKind)
        ensures { self.new ≡ started (is_iso kind) self.old }
    {
        if is_isochronous(kind) {
            return;
        }
        self.command = Some(Command::Chain);
        self.made = 0;
    }

    /// Descriptors of an isochronous endpoint: they are taken and written, and get their frames by the next events.
    ///
    /// # Errors
    ///
    /// `NoEndpoint`, `Closed`, `TooLong` or `NoBlocks`. Nothing changes then.
    pub(crate) fn offer_iso(
        &mut self,
        name: &EpName,
        count: u8,
        len: u16,
        seed: u8,
        mem: &mut WordMem,
    ) -> Result<(), OfferError>
        requires stands { Stands (holding self.old.book mem.old) }
        requires transfers { count ≤ self.old.room.transfers }
        requires reports { count ≤ self.old.room.reports }
        requires bytes { 24576 * count ≤ self.old.room.report_bytes }
        ensures accepted { IfOk result (λ _. iso_answer self.old mem.old name.now count len seed ≡ Ok (standing self.new mem.new)) }
        ensures refused { IfErr result (λ why. iso_answer self.old mem.old name.now count len seed ≡ Err why) }
        ensures same { IfErr result (λ _. (self.new ≡ self.old) × (mem.new ≡ mem.old)) }
        ensures stands { Stands (holding self.new.book mem.new) }
    {
        let Some((e, endpoint)) = self.endpoint_by(name) else {
            return Err(OfferError::NoEndpoint);
        };
        if !is_isochronous(endpoint.desc.kind) {
            return Err(OfferError::NoEndpoint);
        }
        if let Some(cause) = endpoint.ended {
            return Err(OfferError::Closed(cause));
        }
        let all = count as u32 + self.count_waiting(e);
        if spans_too_long(all, endpoint.desc.period) {
            return Err(OfferError::TooLong);
        }
        match slots_of(&endpoint, len) {
            None => Err(OfferError::TooLong),
            Some(slots) => self.take_iso(e, &endpoint, &slots, count, seed, mem),
        }
    }

    /// Descriptors of this endpoint, which takes them where their runs are found.
    fn take_iso(
        &mut self,
        e: usize,
        endpoint: &Endpoint,
        slots: &Slots,
        count: u8,
        seed: u8,
        mem: &mut WordMem,
    ) -> Result<(), OfferError>
        requires stands { Stands (holding self.old.book mem.old) }
        requires transfers { count ≤ self.old.room.transfers }
        requires reports { count ≤ self.old.room.reports }
        requires bytes { 24576 * count ≤ self.old.room.report_bytes }
        requires slot { slots.now.slot ≤ slot_limit slots.now.split }
        requires max { endpoint.now.desc.max ≤ 1024 }
        requires some { 1 ≤ endpoint.now.desc.multi }
        requires multi { endpoint.now.desc.multi ≤ 3 }
        requires port { endpoint.now.desc.port ≤ 127 }
        requires endpoint { slice_get self.old.endpoints e ≡ Some endpoint.now }
        ensures accepted { IfOk result (λ _. taken_descriptors self.old mem.old e endpoint.now slots.now count seed ≡ Ok (standing self.new mem.new)) }
        ensures refused { IfErr result (λ why. taken_descriptors self.old mem.old e endpoint.now slots.now count seed ≡ Err why) }
        ensures same { IfErr result (λ _. (self.new ≡ self.old) × (mem.new ≡ mem.old)) }
        ensures stands { Stands (holding self.new.book mem.new) }
    {
        let keep = self.book.taken().len();
        match take_descriptors(&mut self.book, mem, slots, count) {
            Ok(()) => {
                self.accept_iso(e, endpoint, slots, count, seed, keep, mem);
                Ok(())
            }
            Err(why) => Err(why),
        }
    }

    /// The descriptors are accepted with the runs that were taken after the first `keep`.
    fn accept_iso(
        &mut self,
        e: usize,
        endpoint: &Endpoint,
        slots: &Slots,
        count: u8,
        seed: u8,
        keep: usize,
        mem: &mut WordMem,
    )
        requires stands { Stands (holding self.old.book mem.old) }
        requires transfers { count ≤ self.old.room.transfers }
        requires reports { count ≤ self.old.room.reports }
        requires bytes { 24576 * count ≤ self.old.room.report_bytes }
        requires slot { slots.now.slot ≤ slot_limit slots.now.split }
        requires max { endpoint.now.desc.max ≤ 1024 }
        requires some { 1 ≤ endpoint.now.desc.multi }
        requires multi { endpoint.now.desc.multi ≤ 3 }
        requires port { endpoint.now.desc.port ≤ 127 }
        requires endpoint { slice_get self.old.endpoints e ≡ Some endpoint.now }
        ensures accepted { standing self.new mem.new ≡ entered_descriptors self.old mem.old e endpoint.now slots.now count seed (drop keep self.old.book.taken) }
        ensures stands { Stands (holding self.new.book mem.new) }
    {
        let first = self.transfers.len();
        let next = or_first(endpoint.next, first);
        write_descriptors(
            &self.book,
            mem,
            &mut self.periodic,
            &mut self.transfers,
            e,
            &endpoint.desc,
            slots,
            count,
            seed,
            blocks_from(self.book.taken(), keep),
        );
        self.room = room_for_descriptors(self.room, count, total_bytes(slots));
        self.command = Some(Command::Iso(e, first, count));
        self.made = 0;
        self.endpoints.write(e, Endpoint { next, ..*endpoint });
    }
}
