ghost use Rattle.std.specs.Prelude.{◌≡◌, ◌≤◌, ◌<◌, ◌+◌, ◌^◌, slice_get, false, None, Some};
ghost use Rattle.op_registers.specs.RegisterFile.{RegisterFile};
ghost use Rattle.word_mem.specs.Memory.{Mem};
ghost use Rattle.mem_runs.specs.Book.{holding, Stands};
ghost use Rattle.drv_jobs.specs.AtWork.{at_work, free_room};
ghost use Rattle.drv_jobs.specs.JobOffers.{busy_any};
ghost use Rattle.drv_jobs.specs.Clearing.{mend_of};
ghost use Rattle.drv_jobs.specs.Jobs.{job_row, row_of, stage_row, after_job_row, step_of_job, request_ended};
ghost use Rattle.ehci_driver.specs.JobEvents.{after_work, CanWork, IsAsking};
ghost use Rattle.ehci_driver.specs.Standing.{with_refusal};
ghost use Rattle.ehci_driver.specs.Turns.{parts};
ghost use Rattle.ehci_driver.specs.Written.{OnlyStoresWithJob};

use crate::at_work::DriverAtWork;
use crate::driver::Driver;
use crate::stages::{cause, next_stage, overlay_store, parted, read_stage};
use drv_harvests::waits_at;
use drv_jobs::{Job, JobRow, OverlayWord};
use drv_table::{DriverRow, DriverStep, Endpoint, Mend, Reserve, Transfer};
use op_registers::Registers;
use usb_base::{EpName, OfferError, What};
use word_mem::WordMem;

impl DriverAtWork {
    /// This driver, with no job.
    pub fn new(driver: Driver) -> DriverAtWork
        ensures { result ≡ record { driver = driver; job = None } }
    {
        DriverAtWork { driver, job: None }
    }

    /// The driver, without its job.
    pub fn driver(&self) -> &Driver
        ensures { result.now ≡ self.now.driver }
    {
        &self.driver
    }

    /// The job that is under way.
    pub fn job(&self) -> Option<Job>
        ensures { result ≡ self.now.job }
    {
        self.job
    }

    /// Whether a command or a job is under way.
    pub fn busy(&self) -> bool
        ensures { result ≡ busy_any self.now }
    {
        self.driver.busy() || self.job.is_some()
    }

    /// What of the reserve isn't used, nor to be used by the job. What was used isn't given back.
    pub fn room(&self) -> Reserve
        ensures { result ≡ free_room self.now }
    {
        let room = self.driver.room();
        match self.job {
            Some(_) => Reserve {
                reports: room.reports.saturating_sub(1),
                ..room
            },
            None => room,
        }
    }

    /// One more line of the report: the command on this line of the script was refused. There is room for it beside that of the job.
    pub fn refuse(&mut self, line: u32, name: EpName, why: OfferError)
        requires { 1 ≤ (free_room self.old).reports }
        ensures { self.new ≡ record self.old { driver = with_refusal self.old.driver name line why } }
    {
        self.driver.refuse(line, name, why);
    }

    /// Makes one event of the driver, and tells its kind: the next event of the unfinished command; else that of the job; else one of the
    /// leaving work or one harvest, by turns. After `DriverStep::Reset` the caller resets that endpoint of its device or hub (USB 2.0,
    /// 9.4.5).
    pub fn step(&mut self, regs: &mut Registers, mem: &mut WordMem) -> DriverStep
        requires { Stands (holding self.old.driver.book mem.old) }
        ensures kind { result ≡ step_of_job (job_row (at_work self.old regs.old mem.old)) }
        ensures work { at_work self.new regs.new mem.new ≡ after_work (at_work self.old regs.old mem.old) }
        ensures stands { Stands (holding self.new.driver.book mem.new) }
        ensures room { free_room self.new ≡ free_room self.old }
        ensures words { OnlyStoresWithJob self.old.driver (job_row (at_work self.old regs.old mem.old)) mem.old mem.new }
    {
        let _words = mem.words();
        let row = self.row(regs, mem);
        self.make(regs, mem, &row);
        row.step()
    }

    /// Which row the next event is.
    pub fn row(&self, regs: &Registers, mem: &WordMem) -> JobRow
        ensures { result ≡ job_row (at_work self.now regs.now mem.now) }
    {
        match self.job {
            None => JobRow::Plain(self.driver.row(regs, mem)),
            Some(job) => {
                // A request to a hub is published before it is waited for (EHCI 1.0, 4.10.2).
                if self.driver.busy() {
                    JobRow::Plain(self.driver.row(regs, mem))
                } else {
                    self.stage_row(job, regs, mem)
                }
            }
        }
    }

    /// Which row the next event is, where no command is under way.
    fn stage_row(&self, job: Job, regs: &Registers, mem: &WordMem) -> JobRow
        ensures { result ≡ stage_row (parts self.now.driver regs.now mem.now) job }
    {
        match job {
            // The hub's answer decides (USB 2.0, 11.17.5).
            Job::Asks(_, t) => parted(t, self.driver.row(regs, mem)),
            // The pipeline of a hub forgets a result at the end of its frame (USB 2.0, 11.18.6).
            Job::Reads(_, _) => JobRow::ReadsFrame(regs.frame_index()),
            // The toggle begins anew at both ends (USB 2.0, 5.8.5 and 9.4.5).
            Job::Resets(e) => self.reset_row(e),
            // The controller doesn't go on with a halted queue head (EHCI 1.0, 4.10.3).
            Job::Mends(e, word) => self.mend_row(e, word),
            // The overlay has left its qTDs (EHCI 1.0, 4.10.4).
            Job::Reopens(e) => self.reopen_row(e),
        }
    }

    fn reset_row(&self, e: usize) -> JobRow
        ensures { result ≡ row_of (slice_get self.now.driver.endpoints e) (λ x. JobRow.Resets x.desc.name) }
    {
        match self.driver.endpoints.get(e) {
            Some(endpoint) => JobRow::Resets(endpoint.desc.name),
            None => JobRow::Plain(DriverRow::Rest),
        }
    }

    fn mend_row(&self, e: usize, word: OverlayWord) -> JobRow
        ensures { result ≡ row_of (slice_get self.now.driver.endpoints e) (λ x. JobRow.Mends (mend_of x word)) }
    {
        match self.driver.endpoints.get(e) {
            Some(endpoint) => JobRow::Mends(overlay_store(&endpoint, word)),
            None => JobRow::Plain(DriverRow::Rest),
        }
    }

    fn reopen_row(&self, e: usize) -> JobRow
        ensures { result ≡ row_of (slice_get self.now.driver.endpoints e) (λ x. JobRow.Reopens e) }
    {
        match self.driver.endpoints.get(e) {
            Some(_) => JobRow::Reopens(e),
            None => JobRow::Plain(DriverRow::Rest),
        }
    }
}

impl DriverAtWork {
    /// Makes the event that this row tells.
    fn make(&mut self, regs: &mut Registers, mem: &mut WordMem, row: &JobRow)
        requires stands { Stands (holding self.old.driver.book mem.old) }
        requires can { CanWork self.old row.now }
        ensures work { at_work self.new regs.new mem.new ≡ after_job_row row.now (at_work self.old regs.old mem.old) }
        ensures stands { Stands (holding self.new.driver.book mem.new) }
    {
        match *row {
            JobRow::Plain(own) => self.driver.make(regs, mem, own),
            JobRow::EndsRequest(h, t, n, what) => self.end_request(h, t, n, what),
            JobRow::ReadsFrame(frindex) => self.read_frame(frindex),
            // The endpoint itself is reset by the caller.
            JobRow::Resets(_) => self.job = next_stage(self.job),
            JobRow::Mends(store) => self.store_overlay(mem, store),
            JobRow::Reopens(e) => self.reopen(mem, e),
        }
    }

    /// FRINDEX was read, for what left the frame list too.
    fn read_frame(&mut self, frindex: u16)
        ensures work { (r : RegisterFile) (m : Mem)
            → at_work self.new r m ≡ after_job_row (JobRow.ReadsFrame frindex) (at_work self.old r m) }
        ensures book { self.new.driver.book ≡ self.old.driver.book }
    {
        self.driver.note_frame(frindex);
        self.job = read_stage(frindex, self.job);
    }

    /// A word of a queue head is stored.
    fn store_overlay(&mut self, mem: &mut WordMem, store: Mend)
        requires { Stands (holding self.old.driver.book mem.old) }
        ensures work { (r : RegisterFile) → at_work self.new r mem.new ≡ after_job_row (JobRow.Mends store) (at_work self.old r mem.old) }
        ensures stands { Stands (holding self.new.driver.book mem.new) }
    {
        self.driver.store_overlay(mem, store);
        self.job = next_stage(self.job);
    }

    /// The transfers of an endpoint are given back, and it is open again.
    fn reopen(&mut self, mem: &mut WordMem, e: usize)
        requires stands { Stands (holding self.old.driver.book mem.old) }
        requires last { self.old.job ≡ Some (Job.Reopens e) }
        ensures work { (r : RegisterFile) → at_work self.new r mem.new ≡ after_job_row (JobRow.Reopens e) (at_work self.old r mem.old) }
        ensures stands { Stands (holding self.new.driver.book mem.new) }
    {
        self.driver.reopen(mem, e);
        self.job = None;
    }

    /// A request to a hub ended, which may be that of the job.
    fn end_request(&mut self, h: usize, t: usize, n: u16, what: What)
        ensures work { (r : RegisterFile) (m : Mem)
            → at_work self.new r m ≡ after_job_row (JobRow.EndsRequest h t n what) (at_work self.old r m) }
        ensures book { self.new.driver.book ≡ self.old.driver.book }
    {
        let job = self.job;
        match job {
            Some(Job::Asks(e, _)) => self.end_asked(e, h, t, n, what),
            _ => {}
        }
    }

    /// The same where the job waits for one.
    fn end_asked(&mut self, e: usize, h: usize, t: usize, n: u16, what: What)
        requires asks { IsAsking e self.old.job }
        ensures work { (r : RegisterFile) (m : Mem)
            → at_work self.new r m ≡ after_job_row (JobRow.EndsRequest h t n what) (at_work self.old r m) }
        ensures book { self.new.driver.book ≡ self.old.driver.book }
    {
        let Some(endpoint) = self.driver.endpoint_at(h) else {
            return;
        };
        let Some(transfer) = self.driver.transfer_at(t) else {
            return;
        };
        if !waits_at(&transfer, h) {
            return;
        }
        self.go_on(e, h, t, n, &endpoint, &transfer, what);
    }

    /// The request of the job ended: the job goes on where it is done.
    fn go_on(
        &mut self,
        e: usize,
        h: usize,
        t: usize,
        n: u16,
        endpoint: &Endpoint,
        transfer: &Transfer,
        what: What,
    )
        requires asks { IsAsking e self.old.job }
        requires endpoint { slice_get self.old.driver.endpoints h ≡ Some endpoint.now }
        requires transfer { slice_get self.old.driver.transfers t ≡ Some transfer.now }
        requires open { transfer.now.reported ≡ false }
        requires few { h + 1 < 2 ^ 64 }
        ensures work { (r : RegisterFile) (m : Mem)
            → at_work self.new r m ≡ request_ended (at_work self.old r m) e h t n endpoint.now transfer.now what }
        ensures book { self.new.driver.book ≡ self.old.driver.book }
    {
        if let What::Done = what {
            self.driver.end_request(h, t, n, endpoint, transfer);
            self.job = Some(Job::Resets(e));
            return;
        }
        self.driver
            .fail_request(e, h, t, n, endpoint, transfer, cause(what));
        self.job = None;
    }
}
