ghost use Rattle.std.specs.Prelude.{◌≡◌, ◌≤◌, ◌%◌, IsTrue};
ghost use Rattle.bandwidth.specs.Placements.{is_period, most_bytes};
ghost use Rattle.mem_runs.specs.Book.{holding, Stands};
ghost use Rattle.drv_table.specs.Offers.{IsOpened, HasRoom};
ghost use Rattle.drv_jobs.specs.JobOffers.{IsOfferedAny};

use ehci_driver::{Driver, DriverAtWork, DriverStep, Reserve};
use op_registers::Registers;
use std::alloc::Global;
use std::marker::Model;
use usb_base::{Cmd, EpDesc, EpKind, EpName, Memory, OfferError, Speed};
use word_mem::WordMem;

/// The driver with its job, and the registers and words that it shares with a controller.
#[derive(Drop)]
pub(crate) struct Host {
    driver: DriverAtWork,
    regs: Registers,
    mem: WordMem,
}

impl Model for Host {
    ghost use Rattle.mem_runs.specs.Book.{holding, Stands};
    ghost use Rattle.drv_jobs.specs.AtWork.{PartsAtWork};

    ghost Value = { PartsAtWork };

    ghost view = { λ h. record { parts = record { driver = h.driver.driver; registers = h.regs; memory = h.mem }; job = h.driver.job } };

    ghost invariant = { λ h. Stands (holding h.driver.driver.book h.mem) };
}

impl Host {
    /// The host when its driver was built.
    ///
    /// # Errors
    ///
    /// `Memory` where there is no room for it.
    pub(crate) fn build(alloc: Global, words: u32, room: &Reserve) -> Result<Host, Memory>
        requires at_least { 2048 ≤ words }
        requires at_most { words ≤ 262144 }
        requires whole_pages { words % 1024 ≡ 0 }
    {
        let mut regs = Registers::reset();
        let mut mem = WordMem::build(alloc, words)?;
        let driver = Driver::build(alloc, room, &mut regs, &mut mem)?;
        Ok(Host {
            driver: DriverAtWork::new(driver),
            regs,
            mem,
        })
    }

    /// Offers a command. None: it isn't one that may be offered.
    pub(crate) fn offer(&mut self, cmd: &Cmd) -> Option<Result<(), OfferError>> {
        if !is_offered(&self.driver.room(), cmd) {
            return None;
        }
        Some(self.driver.offer(cmd, &mut self.mem))
    }

    /// One event of the driver.
    pub(crate) fn step(&mut self) -> DriverStep {
        self.driver.step(&mut self.regs, &mut self.mem)
    }

    /// One more line of the report: the command on line 7 was refused.
    pub(crate) fn refuse(&mut self, name: EpName, why: OfferError) {
        if self.driver.room().reports >= 1 {
            self.driver.refuse(7, name, why);
        }
    }

    /// The controller writes a word. False: it may not.
    pub(crate) fn write(&mut self, at: u32, word: u32) -> bool {
        if at % 4 != 0 {
            return false;
        }
        self.mem.hc_write(at, word)
    }

    /// The next microframe begins.
    pub(crate) fn begin(&mut self) {
        self.regs.begin_microframe();
    }

    /// The controller answers the doorbell.
    pub(crate) fn answer(&mut self) {
        self.regs.advance();
    }

    pub(crate) fn driver(&self) -> &Driver {
        self.driver.driver()
    }

    /// What of the room isn't used, nor to be used by a clear.
    pub(crate) fn room(&self) -> Reserve {
        self.driver.room()
    }

    pub(crate) fn regs(&self) -> &Registers {
        &self.regs
    }

    pub(crate) fn mem(&self) -> &WordMem {
        &self.mem
    }
}

/// Whether the command may be offered with this room.
fn is_offered(room: &Reserve, cmd: &Cmd) -> bool
    ensures { IsTrue result → IsOfferedAny room.now cmd.now }
{
    match cmd {
        Cmd::OpenEp(desc) => room.endpoints >= 1
            && desc.max <= 1024
            && desc.port <= 127
            && is_opened(desc),
        Cmd::Get { len, by, .. } => is_cut(*by) && has_room(room, *len as usize),
        Cmd::Put { bytes, by, .. } => is_cut(*by) && has_room(room, bytes.as_slice().len()),
        Cmd::Control { setup, .. } => has_room(room, setup[6] as usize + 256 * setup[7] as usize),
        Cmd::Iso { count, .. } => {
            *count as u32 <= room.transfers
                && *count as u32 <= room.reports
                && 24_576 * *count as u32 <= room.report_bytes
        }
        Cmd::Clear(_) => room.transfers >= 1 && room.reports >= 2,
        Cmd::Cancel(_)
        | Cmd::Reset(_)
        | Cmd::Give(_)
        | Cmd::DiskRead { .. }
        | Cmd::DiskWrite { .. }
        | Cmd::Revive(_) => room.reports >= 1,
    }
}

/// Whether an endpoint may be opened: of those with a place in the frame list the ones at high and at full speed.
#[tactic(auto, using(std::proofs::lemmas::Grind::common_steps, crate::proofs::Wants::in_ring))]
fn is_opened(desc: &EpDesc) -> bool
    ensures { IsTrue result → IsOpened desc.now }
{
    match desc.kind {
        EpKind::Bulk | EpKind::Control => true,
        EpKind::Interrupt => match desc.speed {
            Speed::High => is_wanted(desc),
            Speed::Full => is_wanted_behind(desc, 64),
            Speed::Low => false,
        },
        EpKind::Iso => match desc.speed {
            Speed::High => is_wanted(desc),
            Speed::Full => is_wanted_behind(desc, 1023),
            Speed::Low => false,
        },
    }
}

/// Whether a plan may be asked for it, at high speed.
#[tactic(auto, using(std::proofs::lemmas::Grind::common_steps, crate::proofs::Wants::wanted))]
fn is_wanted(desc: &EpDesc) -> bool
    requires { desc.now.speed ≡ Speed.High }
    ensures { IsTrue result → IsOpened desc.now }
{
    if desc.hub.is_some() || desc.tt != 0 || !is_power(desc.period) {
        return false;
    }
    desc.period >= 1 && desc.max >= 1 && desc.max <= 1024 && desc.multi >= 1 && desc.multi <= 3
}

/// Whether a plan may be asked for an endpoint behind a hub, with packets of so many bytes at most.
#[tactic(auto, using(std::proofs::lemmas::Grind::common_steps, crate::proofs::Wants::wanted_behind))]
fn is_wanted_behind(desc: &EpDesc, most: u16) -> bool
    requires speed { desc.now.speed ≡ Speed.Full }
    requires most { most ≤ most_bytes Speed.Full desc.now.kind }
    ensures { IsTrue result → IsOpened desc.now }
{
    if desc.hub.is_none() || desc.tt != 0 || !is_power(desc.period) {
        return false;
    }
    desc.period >= 8 && desc.max >= 1 && desc.max <= most && desc.multi >= 1 && desc.multi <= 1
}

/// Whether an endpoint may have this period.
fn is_power(period: u16) -> bool
    ensures { result ≡ is_period period }
{
    period == 1
        || period == 2
        || period == 4
        || period == 8
        || period == 16
        || period == 32
        || period == 64
        || period == 128
        || period == 256
        || period == 512
        || period == 1024
        || period == 2048
        || period == 4096
        || period == 8192
}

/// Whether a transfer may be cut so.
fn is_cut(by: u32) -> bool
    ensures some { IsTrue result → 1 ≤ by }
    ensures few { IsTrue result → by ≤ 20480 }
{
    by >= 1 && by <= 20480
}

/// Whether there is room for a transfer of so many bytes.
fn has_room(room: &Reserve, most: usize) -> bool
    ensures { IsTrue result → HasRoom room.now most }
{
    room.transfers >= 1
        && room.reports >= 1
        && (most > 20480 || most as u64 <= room.report_bytes as u64)
}
