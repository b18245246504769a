ghost use Rattle.std.specs.Prelude.{◌≡◌, ◌≤◌, false, nat_eq, length, drop, slice_get, Some, None, Ok, Err, IfOk, IfErr, IfSome, IfNone, ◌++◌};
ghost use Rattle.usb_base.specs.Limits.{longest_qtd};
ghost use Rattle.mem_runs.specs.Book.{holding, Stands};
ghost use Rattle.drv_table.specs.DriverContent.{endpoint_of, endpoint_named};
ghost use Rattle.drv_table.specs.Words.{request_length};
ghost use Rattle.drv_table.specs.Offers.{offered_transfer, stage_words, first_of, takes_get, takes_put, takes_control, HasRoom};
ghost use Rattle.drv_words.specs.Cuts.{stages_of, IsCut};
ghost use Rattle.ehci_driver.specs.Standing.{standing, get_asked, put_asked, request_asked, cut_asked, taken_asked, new_dummy, noted_transfer, written_transfer, accepted_with, entered};

use crate::driver::Driver;
use drv_endpoints::{can_get, can_put, less_room, or_first, refusal};
use drv_queues::{Queued, take_transfer, write_transfer};
use drv_table::{Command, Endpoint, Part, Sort, Transfer};
use drv_words::{Cut, is_for_control};
use usb_base::{EpName, OfferError};
use word_mem::WordMem;

impl Driver {
    /// A get: `len` bytes are asked of an IN endpoint, in qTDs of `by`.
    ///
    /// # Errors
    ///
    /// `NoEndpoint`, `Closed`, `TooLong` or `NoBlocks`. Nothing changes then.
    pub(crate) fn offer_get(
        &mut self,
        name: &EpName,
        len: u32,
        by: u32,
        mem: &mut WordMem,
    ) -> Result<(), OfferError>
        requires some { 1 ≤ by }
        requires few { by ≤ longest_qtd }
        requires room { HasRoom self.old.room len }
        requires stands { Stands (holding self.old.book mem.old) }
        ensures accepted { IfOk result (λ _. offered_transfer self.old mem.old name.now takes_get (get_asked len by) ≡ Ok (standing self.new mem.new)) }
        ensures refused { IfErr result (λ why. offered_transfer self.old mem.old name.now takes_get (get_asked len by) ≡ Err why) }
        ensures same { IfErr result (λ _. (self.new ≡ self.old) × (mem.new ≡ mem.old)) }
        ensures stands { Stands (holding self.new.book mem.new) }
    {
        let Some((e, endpoint)) = self.endpoint_by(name) else {
            return Err(OfferError::NoEndpoint);
        };
        if !can_get(&endpoint) {
            return Err(OfferError::NoEndpoint);
        }
        if let Some(why) = refusal(&endpoint, len as usize) {
            return Err(why);
        }
        self.take_at(
            e,
            &endpoint,
            Sort::Get,
            &Cut::Get(len, by),
            len,
            &[],
            &[],
            mem,
        )
    }

    /// A put: these bytes are sent to an OUT endpoint, in qTDs of `by`.
    ///
    /// # Errors
    ///
    /// `NoEndpoint`, `Closed`, `TooLong` or `NoBlocks`. Nothing changes then.
    pub(crate) fn offer_put(
        &mut self,
        name: &EpName,
        bytes: &[u8],
        by: u32,
        mem: &mut WordMem,
    ) -> Result<(), OfferError>
        requires some { 1 ≤ by }
        requires few { by ≤ longest_qtd }
        requires room { HasRoom self.old.room (length bytes.now) }
        requires stands { Stands (holding self.old.book mem.old) }
        ensures accepted { IfOk result (λ _. offered_transfer self.old mem.old name.now takes_put (put_asked bytes.now by) ≡ Ok (standing self.new mem.new)) }
        ensures refused { IfErr result (λ why. offered_transfer self.old mem.old name.now takes_put (put_asked bytes.now by) ≡ Err why) }
        ensures same { IfErr result (λ _. (self.new ≡ self.old) × (mem.new ≡ mem.old)) }
        ensures stands { Stands (holding self.new.book mem.new) }
    {
        let Some((e, endpoint)) = self.endpoint_by(name) else {
            return Err(OfferError::NoEndpoint);
        };
        if !can_put(&endpoint) {
            return Err(OfferError::NoEndpoint);
        }
        if let Some(why) = refusal(&endpoint, bytes.len()) {
            return Err(why);
        }
        self.take_at(
            e,
            &endpoint,
            Sort::Put,
            &Cut::Put(bytes.len() as u32, by),
            bytes.len() as u32,
            &[],
            bytes,
            mem,
        )
    }

    /// A request to a control endpoint (USB 2.0, 9.3), with the bytes of its data stage where that is an OUT.
    ///
    /// # Errors
    ///
    /// `NoEndpoint`, `Closed`, `TooLong` or `NoBlocks`. Nothing changes then.
    pub(crate) fn offer_control(
        &mut self,
        name: &EpName,
        setup: &[u8; 8],
        bytes: &[u8],
        mem: &mut WordMem,
    ) -> Result<(), OfferError>
        requires room { HasRoom self.old.room (request_length setup.now) }
        requires stands { Stands (holding self.old.book mem.old) }
        ensures accepted { IfOk result (λ _. offered_transfer self.old mem.old name.now takes_control (request_asked setup.now bytes.now) ≡ Ok (standing self.new mem.new)) }
        ensures refused { IfErr result (λ why. offered_transfer self.old mem.old name.now takes_control (request_asked setup.now bytes.now) ≡ Err why) }
        ensures same { IfErr result (λ _. (self.new ≡ self.old) × (mem.new ≡ mem.old)) }
        ensures stands { Stands (holding self.new.book mem.new) }
    {
        let Some((e, endpoint)) = self.endpoint_by(name) else {
            return Err(OfferError::NoEndpoint);
        };
        if !is_for_control(endpoint.desc.kind) {
            return Err(OfferError::NoEndpoint);
        }
        let len = setup[6] as u32 + 256 * setup[7] as u32;
        if let Some(why) = refusal(&endpoint, len as usize) {
            return Err(why);
        }
        self.take_at(
            e,
            &endpoint,
            Sort::Request,
            &Cut::Request(*setup),
            len,
            setup,
            bytes,
            mem,
        )
    }

    /// The endpoint with this name, and its number.
    pub(crate) fn endpoint_by(&self, name: &EpName) -> Option<(usize, Endpoint)>
        ensures number { IfSome result (λ both. endpoint_of self.now name.now ≡ Some both.0) }
        ensures endpoint { IfSome result (λ both. endpoint_named self.now name.now ≡ Some both.1) }
        ensures there { IfSome result (λ both. slice_get self.now.endpoints both.0 ≡ Some both.1) }
        ensures none { IfNone result (endpoint_named self.now name.now ≡ None) }
    {
        let Some(e) = self.endpoints.find(name) else {
            return None;
        };
        match self.endpoints.get(e) {
            Some(endpoint) => Some((e, endpoint)),
            None => None,
        }
    }

    /// A transfer of this endpoint, which takes it where its runs are found: its qTDs, the most bytes that its report tells, and the
    /// bytes that it sends, `front` and then `bytes`.
    ///
    /// # Errors
    ///
    /// `NoBlocks` where a run isn't found. Nothing changes then.
    fn take_at(
        &mut self,
        e: usize,
        endpoint: &Endpoint,
        sort: Sort,
        cut: &Cut,
        most: u32,
        front: &[u8],
        bytes: &[u8],
        mem: &mut WordMem,
    ) -> Result<(), OfferError>
        requires endpoint { slice_get self.old.endpoints e ≡ Some endpoint.now }
        requires cut { IsCut cut.now }
        requires front { length front.now ≤ 8 }
        requires transfers { 1 ≤ self.old.room.transfers }
        requires reports { 1 ≤ self.old.room.reports }
        requires bytes { most ≤ self.old.room.report_bytes }
        requires stands { Stands (holding self.old.book mem.old) }
        ensures accepted { IfOk result (λ _. taken_asked self.old mem.old e endpoint.now (cut_asked sort cut.now most (front.now ++ bytes.now)) ≡ Ok (standing self.new mem.new)) }
        ensures refused { IfErr result (λ why. taken_asked self.old mem.old e endpoint.now (cut_asked sort cut.now most (front.now ++ bytes.now)) ≡ Err why) }
        ensures same { IfErr result (λ _. (self.new ≡ self.old) × (mem.new ≡ mem.old)) }
        ensures stands { Stands (holding self.new.book mem.new) }
    {
        let keep = self.book.taken().len();
        match take_transfer(&mut self.book, mem, cut) {
            Ok(()) => {
                self.accept_at(e, endpoint, sort, cut, most, keep, front, bytes, mem);
                Ok(())
            }
            Err(why) => Err(why),
        }
    }

    /// The transfer is accepted with the runs that were taken after the first `keep`.
    fn accept_at(
        &mut self,
        e: usize,
        endpoint: &Endpoint,
        sort: Sort,
        cut: &Cut,
        most: u32,
        keep: usize,
        front: &[u8],
        bytes: &[u8],
        mem: &mut WordMem,
    )
        requires endpoint { slice_get self.old.endpoints e ≡ Some endpoint.now }
        requires cut { IsCut cut.now }
        requires front { length front.now ≤ 8 }
        requires transfers { 1 ≤ self.old.room.transfers }
        requires reports { 1 ≤ self.old.room.reports }
        requires bytes { most ≤ self.old.room.report_bytes }
        requires stands { Stands (holding self.old.book mem.old) }
        ensures accepted { standing self.new mem.new ≡ accepted_with self.old mem.old e endpoint.now (cut_asked sort cut.now most (front.now ++ bytes.now)) (drop keep self.old.book.taken) }
        ensures stands { Stands (holding self.new.book mem.new) }
    {
        let queued = self.write_at(cut, endpoint.dummy, keep, front, bytes, mem);
        let transfer = Transfer {
            endpoint: e,
            sort,
            first: endpoint.dummy,
            qtds: queued.qtds,
            place: endpoint.dummy,
            left: queued.qtds,
            most,
            reported: false,
            released: false,
            part: Part::Own,
        };
        self.enter(e, endpoint, transfer, &queued);
    }

    /// The qTDs of a transfer and the bytes that it sends are noted and written, with the old dummy in the block `first`.
    fn write_at(
        &mut self,
        cut: &Cut,
        first: u16,
        keep: usize,
        front: &[u8],
        bytes: &[u8],
        mem: &mut WordMem,
    ) -> Queued
        requires cut { IsCut cut.now }
        requires front { length front.now ≤ 8 }
        requires stands { Stands (holding self.old.book mem.old) }
        ensures qtds { result.qtds ≡ length (stages_of cut.now) }
        ensures dummy { result.dummy ≡ new_dummy (stages_of cut.now) (drop keep self.old.book.taken) }
        ensures driver { self.new ≡ record self.old { notes = noted_transfer self.old.notes (stages_of cut.now) first (drop keep self.old.book.taken) } }
        ensures words { result.words ≡ stage_words self.new.notes (first_of (stages_of cut.now)) first result.dummy (nat_eq (length (stages_of cut.now)) 1) }
        ensures memory { mem.new ≡ written_transfer self.old.book mem.old self.new.notes (stages_of cut.now) first result.dummy (front.now ++ bytes.now) }
        ensures stands { Stands (holding self.new.book mem.new) }
    {
        write_transfer(
            &self.book,
            mem,
            self.notes.as_mut_slice(),
            cut,
            first,
            keep,
            front,
            bytes,
        )
    }

    /// A new transfer of this endpoint is the last in its queue, and its first qTD is to be published.
    fn enter(&mut self, e: usize, endpoint: &Endpoint, transfer: Transfer, queued: &Queued)
        requires endpoint { slice_get self.old.endpoints e ≡ Some endpoint.now }
        requires transfers { 1 ≤ self.old.room.transfers }
        requires reports { 1 ≤ self.old.room.reports }
        requires bytes { transfer.most ≤ self.old.room.report_bytes }
        requires open { transfer.reported ≡ false }
        ensures driver { self.new ≡ entered self.old e endpoint.now transfer queued.now.dummy queued.now.words }
    {
        let next = or_first(endpoint.next, self.transfers.len());
        self.room = less_room(self.room, transfer.most);
        self.command = Some(Command::Publish(transfer.first, queued.words));
        self.made = 0;
        self.transfers.push_reserved(transfer);
        let longer = Endpoint {
            dummy: queued.dummy,
            next,
            ..*endpoint
        };
        self.endpoints.write(e, longer);
    }
}
