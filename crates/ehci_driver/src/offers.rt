ghost use Rattle.std.specs.Prelude.{◌≡◌, ◌≤◌, ◌<◌, length, slice_get, Some, Ok, Err, IfOk, IfErr, [], ◌∷◌};
ghost use Rattle.word_mem.specs.Memory.{Mem};
ghost use Rattle.mem_runs.specs.Book.{holding, Stands};
ghost use Rattle.drv_table.specs.DriverContent.{endpoint_named};
ghost use Rattle.drv_table.specs.Words.{queue_head_link};
ghost use Rattle.drv_table.specs.Offers.{offered, offered_next, offered_open, taken_open, written_open, IsOpened, IsOffered};
ghost use Rattle.drv_table.specs.Accepting.{take_runs, before, after, newest_of};
ghost use Rattle.drv_table.specs.CancelOffers.{cancelled_by, accepted_cancel};
ghost use Rattle.ehci_driver.specs.Standing.{standing, opened_at, cancel_answer};

use crate::driver::Driver;
use drv_endpoints::{not_again, or_cancel};
use drv_frames_content::is_in_frames;
use drv_queues::{newest, oldest, take_endpoint, write_endpoint};
use drv_table::{Command, Endpoint};
use usb_base::{Cmd, EndCause, EpDesc, EpName, OfferError};
use word_mem::WordMem;

impl Driver {
    /// Accepts a command or refuses it. What an accepted one asks for is written while no one else sees it, and made by the next events.
    ///
    /// # Errors
    ///
    /// The first of these that there is: `Busy`, `NoEndpoint`, `Closed`, `AlreadyOpen`, `TooLong`, `NoBlocks`. Nothing changes then.
    pub fn offer(&mut self, cmd: &Cmd, mem: &mut WordMem) -> Result<(), OfferError>
        requires stands { Stands (holding self.old.book mem.old) }
        requires offered { IsOffered self.old.room cmd.now }
        ensures accepted { IfOk result (λ _. offered self.old mem.old cmd.now ≡ Ok (standing self.new mem.new)) }
        ensures refused { IfErr result (λ why. offered self.old mem.old cmd.now ≡ Err why) }
        ensures same { IfErr result (λ _. (self.new ≡ self.old) × (mem.new ≡ mem.old)) }
        ensures stands { Stands (holding self.new.book mem.new) }
    {
        if self.busy() {
            return Err(OfferError::Busy);
        }
        self.offer_next(cmd, mem)
    }

    /// Accepts or refuses a command where none is unfinished.
    pub(crate) fn offer_next(&mut self, cmd: &Cmd, mem: &mut WordMem) -> Result<(), OfferError>
        requires stands { Stands (holding self.old.book mem.old) }
        requires offered { IsOffered self.old.room cmd.now }
        ensures accepted { IfOk result (λ _. offered_next self.old mem.old cmd.now ≡ Ok (standing self.new mem.new)) }
        ensures refused { IfErr result (λ why. offered_next self.old mem.old cmd.now ≡ Err why) }
        ensures same { IfErr result (λ _. (self.new ≡ self.old) × (mem.new ≡ mem.old)) }
        ensures stands { Stands (holding self.new.book mem.new) }
    {
        match cmd {
            Cmd::OpenEp(desc) => self.offer_open(desc, mem),
            Cmd::Get { name, len, by } => self.offer_get(name, *len, *by, mem),
            Cmd::Put { name, bytes, by } => self.offer_put(name, bytes.as_slice(), *by, mem),
            Cmd::Control { name, setup, bytes } => self.offer_control(
                name,
                setup,
                bytes.as_slice(),
                mem,
            ),
            Cmd::Iso {
                name,
                count,
                len,
                seed,
            } => self.offer_iso(name, *count, *len, *seed, mem),
            Cmd::Cancel(name) => self.offer_cancel(name),
            Cmd::Clear(_)
            | Cmd::Reset(_)
            | Cmd::Give(_)
            | Cmd::DiskRead { .. }
            | Cmd::DiskWrite { .. }
            | Cmd::Revive(_) => Err(OfferError::NoEndpoint),
        }
    }

    /// The open of an endpoint: the queue head of a bulk or control endpoint and its dummy are taken and written, and the queue head is to be
    /// lent and linked behind the head of the ring; a periodic endpoint asks the plan first.
    ///
    /// # Errors
    ///
    /// `Closed` where the endpoint has ended, `AlreadyOpen` where it is open, `NoPlacement` where the plan has none, `NoBlocks` where a run
    /// isn't found. Nothing changes then.
    fn offer_open(&mut self, desc: &EpDesc, mem: &mut WordMem) -> Result<(), OfferError>
        requires stands { Stands (holding self.old.book mem.old) }
        requires room { 1 ≤ self.old.room.endpoints }
        requires max { desc.now.max ≤ 1024 }
        requires port { desc.now.port ≤ 127 }
        requires want { IsOpened desc.now }
        ensures accepted { IfOk result (λ _. offered_open self.old mem.old desc.now (endpoint_named self.old desc.now.name) ≡ Ok (standing self.new mem.new)) }
        ensures refused { IfErr result (λ why. offered_open self.old mem.old desc.now (endpoint_named self.old desc.now.name) ≡ Err why) }
        ensures same { IfErr result (λ _. (self.new ≡ self.old) × (mem.new ≡ mem.old)) }
        ensures stands { Stands (holding self.new.book mem.new) }
    {
        if let Some((_, endpoint)) = self.endpoint_by(&desc.name) {
            return Err(not_again(&endpoint));
        }
        if is_in_frames(desc.kind) {
            return self.plan_open(desc, mem);
        }
        self.take_open(desc, mem)
    }

    /// The open of an endpoint of the ring.
    fn take_open(&mut self, desc: &EpDesc, mem: &mut WordMem) -> Result<(), OfferError>
        requires stands { Stands (holding self.old.book mem.old) }
        requires room { 1 ≤ self.old.room.endpoints }
        requires max { desc.now.max ≤ 1024 }
        requires port { desc.now.port ≤ 127 }
        ensures accepted { IfOk result (λ _. taken_open self.old desc.now (take_runs (holding self.old.book mem.old) (2 ∷ 1 ∷ [])) ≡ Ok (standing self.new mem.new)) }
        ensures refused { IfErr result (λ why. taken_open self.old desc.now (take_runs (holding self.old.book mem.old) (2 ∷ 1 ∷ [])) ≡ Err why) }
        ensures same { IfErr result (λ _. (self.new ≡ self.old) × (mem.new ≡ mem.old)) }
        ensures stands { Stands (holding self.new.book mem.new) }
    {
        match take_endpoint(&mut self.book, mem) {
            Ok((queue, dummy)) => {
                self.accept_open(desc, mem, queue, dummy);
                Ok(())
            }
            Err(why) => Err(why),
        }
    }

    /// The open is accepted with these runs.
    fn accept_open(&mut self, desc: &EpDesc, mem: &mut WordMem, queue: u16, dummy: u16)
        requires stands { Stands (holding self.old.book mem.old) }
        requires room { 1 ≤ self.old.room.endpoints }
        requires max { desc.now.max ≤ 1024 }
        requires port { desc.now.port ≤ 127 }
        ensures driver { self.new ≡ opened_at self.old desc.now queue dummy }
        ensures memory { mem.new ≡ written_open self.old.book mem.old desc.now (newest_of self.old.endpoints) queue dummy }
        ensures stands { Stands (holding self.new.book mem.new) }
    {
        let link = newest(self.endpoints.as_slice());
        write_endpoint(&self.book, mem, desc, link, queue, dummy);
        self.endpoints.push(&Endpoint {
            desc: *desc,
            placement: None,
            queue,
            dummy,
            next: None,
            ended: None,
            cancelled: false,
            linked: true,
            chained: false,
            gone: false,
        });
        self.command = Some(Command::Open(queue));
        self.made = 0;
        self.room.endpoints -= 1;
    }

    /// The cancel of an endpoint: its predecessor in the ring is to lead to its successor, or what it has in the frame list is to leave it.
    ///
    /// # Errors
    ///
    /// `NoEndpoint` where it was never opened, `Closed` where a cancel was accepted before. Nothing changes then.
    fn offer_cancel(&mut self, name: &EpName) -> Result<(), OfferError>
        requires room { 1 ≤ self.old.room.reports }
        ensures accepted { IfOk result (λ _. (m : Mem) → cancel_answer self.old m name.now ≡ Ok (standing self.new m)) }
        ensures refused { IfErr result (λ why. (m : Mem) → cancel_answer self.old m name.now ≡ Err why) }
        ensures same { IfErr result (λ _. self.new ≡ self.old) }
        ensures book { self.new.book ≡ self.old.book }
    {
        let Some((e, endpoint)) = self.endpoint_by(name) else {
            return Err(OfferError::NoEndpoint);
        };
        if endpoint.cancelled {
            return Err(OfferError::Closed(EndCause::Cancel));
        }
        self.cancel_endpoint(e, &endpoint);
        Ok(())
    }

    /// The cancel of this endpoint is accepted: it leaves its frames, or the ring.
    fn cancel_endpoint(&mut self, e: usize, endpoint: &Endpoint)
        requires room { 1 ≤ self.old.room.reports }
        requires endpoint { slice_get self.old.endpoints e ≡ Some endpoint.now }
        ensures driver { self.new ≡ cancelled_by self.old e endpoint.now endpoint.now.placement }
        ensures book { self.new.book ≡ self.old.book }
    {
        match endpoint.placement {
            Some(placement) => self.accept_unchain(e, endpoint, &placement),
            None => self.accept_cancel(e, endpoint),
        }
    }

    /// The cancel of this endpoint of the ring is accepted.
    fn accept_cancel(&mut self, e: usize, endpoint: &Endpoint)
        requires room { 1 ≤ self.old.room.reports }
        requires endpoint { slice_get self.old.endpoints e ≡ Some endpoint.now }
        ensures driver { self.new ≡ accepted_cancel self.old e endpoint.now }
        ensures book { self.new.book ≡ self.old.book }
    {
        let behind = self.block_before(e);
        let link = link_to(self.block_after(e));
        self.room.reports -= 1;
        self.command = Some(Command::Unlink(e, behind, link));
        self.made = 0;
        let cancelled = Endpoint {
            cancelled: true,
            ended: or_cancel(endpoint.ended),
            ..*endpoint
        };
        self.endpoints.write(e, cancelled);
    }

    /// The block that leads to the endpoint of this number in the ring.
    fn block_before(&self, e: usize) -> u16
        requires { e < length self.now.endpoints }
        ensures { result ≡ before self.now e }
    {
        oldest(&self.endpoints.as_slice()[e + 1..])
    }

    /// The block to which the endpoint of this number leads in the ring.
    fn block_after(&self, e: usize) -> u16
        requires { e < length self.now.endpoints }
        ensures { result ≡ after self.now e }
    {
        newest(&self.endpoints.as_slice()[..e])
    }
}

/// The link to the queue head that begins in this block.
fn link_to(block: u16) -> u32
    ensures { result ≡ queue_head_link block }
{
    32 * block as u32 + 2
}
