ghost use Rattle.std.specs.Prelude.{◌≡◌, ◌≤◌, Some, None, Ok, Err, IfOk, IfErr};
ghost use Rattle.mem_runs.specs.Book.{holding, Stands};
ghost use Rattle.drv_table.specs.DriverContent.{endpoint_of, endpoint_named};
ghost use Rattle.drv_jobs.specs.AtWork.{free_room};
ghost use Rattle.drv_jobs.specs.JobOffers.{offered_any, asked_hub, is_shut, IsOfferedAny};
ghost use Rattle.ehci_driver.specs.JobEvents.{working, clear_answer, begun_answer};

use crate::at_work::DriverAtWork;
use crate::hub_requests::{clear_setup, hub_zero, is_high_speed};
use drv_chains::Boundary;
use drv_endpoints::is_isochronous;
use drv_jobs::Job;
use drv_table::Endpoint;
use usb_base::{Cmd, EndCause, EpKind, EpName, OfferError};
use word_mem::WordMem;

impl DriverAtWork {
    /// Accepts a command or refuses it. What an accepted one asks for is written while no one else sees it, and made by the next events.
    ///
    /// # Errors
    ///
    /// `Busy` while a command or a job is under way; else those of `Driver::offer`, and of a clear the first of these that there is:
    /// `NoEndpoint` where it isn't open or isochronous, `Closed` behind a cancel, `NotEnded`, `HubClosed`, `NoBlocks`. Nothing changes
    /// then.
    pub fn offer(&mut self, cmd: &Cmd, mem: &mut WordMem) -> Result<(), OfferError>
        requires stands { Stands (holding self.old.driver.book mem.old) }
        requires offered { IsOfferedAny (free_room self.old) cmd.now }
        ensures accepted { IfOk result (λ _. offered_any self.old mem.old cmd.now ≡ Ok (working self.new mem.new)) }
        ensures refused { IfErr result (λ why. offered_any self.old mem.old cmd.now ≡ Err why) }
        ensures same { IfErr result (λ _. (self.new ≡ self.old) × (mem.new ≡ mem.old)) }
        ensures stands { Stands (holding self.new.driver.book mem.new) }
    {
        if self.busy() {
            return Err(OfferError::Busy);
        }
        match cmd {
            Cmd::Clear(name) => self.offer_clear(name, mem),
            _ => self.driver.offer_next(cmd, mem),
        }
    }

    /// The clear of an endpoint, where no command and no job is under way.
    ///
    /// # Errors
    ///
    /// `NoEndpoint`, `Closed`, `NotEnded`, `HubClosed` or `NoBlocks`. Nothing changes then.
    fn offer_clear(&mut self, name: &EpName, mem: &mut WordMem) -> Result<(), OfferError>
        requires stands { Stands (holding self.old.driver.book mem.old) }
        requires idle { self.old.job ≡ None }
        requires transfers { 1 ≤ self.old.driver.room.transfers }
        requires reports { 2 ≤ self.old.driver.room.reports }
        ensures accepted { IfOk result (λ _. clear_answer self.old.driver mem.old name.now ≡ Ok (working self.new mem.new)) }
        ensures refused { IfErr result (λ why. clear_answer self.old.driver mem.old name.now ≡ Err why) }
        ensures same { IfErr result (λ _. (self.new ≡ self.old) × (mem.new ≡ mem.old)) }
        ensures stands { Stands (holding self.new.driver.book mem.new) }
    {
        let Some((e, endpoint)) = self.driver.endpoint_by(name) else {
            return Err(OfferError::NoEndpoint);
        };
        if is_isochronous(endpoint.desc.kind) {
            return Err(OfferError::NoEndpoint);
        }
        if endpoint.cancelled {
            return Err(OfferError::Closed(EndCause::Cancel));
        }
        if endpoint.ended.is_none() {
            return Err(OfferError::NotEnded);
        }
        self.begin(e, &endpoint, mem)
    }

    /// The first stage of the clear of this endpoint, which has ended.
    ///
    /// # Errors
    ///
    /// `HubClosed` or `NoBlocks` of one behind a hub. Nothing changes then.
    fn begin(&mut self, e: usize, endpoint: &Endpoint, mem: &mut WordMem) -> Result<(), OfferError>
        requires stands { Stands (holding self.old.driver.book mem.old) }
        requires idle { self.old.job ≡ None }
        requires transfers { 1 ≤ self.old.driver.room.transfers }
        requires reports { 2 ≤ self.old.driver.room.reports }
        ensures accepted { IfOk result (λ _. begun_answer self.old.driver mem.old e endpoint.now ≡ Ok (working self.new mem.new)) }
        ensures refused { IfErr result (λ why. begun_answer self.old.driver mem.old e endpoint.now ≡ Err why) }
        ensures same { IfErr result (λ _. (self.new ≡ self.old) × (mem.new ≡ mem.old)) }
        ensures stands { Stands (holding self.new.driver.book mem.new) }
    {
        if is_high_speed(endpoint.desc.speed) {
            self.job = Some(Job::Resets(e));
            return Ok(());
        }
        match endpoint.desc.kind {
            EpKind::Interrupt => {
                self.job = Some(Job::Reads(e, Boundary::Unread));
                Ok(())
            }
            EpKind::Control | EpKind::Iso | EpKind::Bulk => self.ask_hub(e, endpoint, mem),
        }
    }

    /// The hub is asked to empty the buffer of this endpoint (USB 2.0, 11.17.5).
    ///
    /// # Errors
    ///
    /// `HubClosed` where its endpoint 0 isn't open, has ended, or has a request without a line; `NoBlocks`. Nothing changes then.
    fn ask_hub(
        &mut self,
        e: usize,
        endpoint: &Endpoint,
        mem: &mut WordMem,
    ) -> Result<(), OfferError>
        requires stands { Stands (holding self.old.driver.book mem.old) }
        requires idle { self.old.job ≡ None }
        requires transfers { 1 ≤ self.old.driver.room.transfers }
        requires reports { 2 ≤ self.old.driver.room.reports }
        ensures accepted { IfOk result (λ _. asked_hub self.old.driver mem.old e endpoint.now ≡ Ok (working self.new mem.new)) }
        ensures refused { IfErr result (λ why. asked_hub self.old.driver mem.old e endpoint.now ≡ Err why) }
        ensures same { IfErr result (λ _. (self.new ≡ self.old) × (mem.new ≡ mem.old)) }
        ensures stands { Stands (holding self.new.driver.book mem.new) }
    {
        let name = hub_zero(&endpoint.desc);
        if self.is_shut(&name) {
            return Err(OfferError::HubClosed);
        }
        let t = self.driver.transfers.len();
        let setup = clear_setup(&endpoint.desc);
        match self.driver.offer_control(&name, &setup, &[], mem) {
            Ok(()) => {
                self.job = Some(Job::Asks(e, t));
                Ok(())
            }
            Err(why) => Err(why),
        }
    }

    /// Whether this endpoint 0 of a hub isn't open, has ended, or has a request without a line.
    fn is_shut(&self, name: &EpName) -> bool
        ensures { result ≡ is_shut self.now.driver (endpoint_named self.now.driver name.now) (endpoint_of self.now.driver name.now) }
    {
        match self.driver.endpoint_by(name) {
            Some((_, endpoint)) => endpoint.ended.is_some() || self.driver.pending(name) > 0,
            None => true,
        }
    }
}
