ghost use Rattle.std.specs.Prelude.{◌≡◌, ◌≤◌, ◌/◌, length, replicate, [], IfOk, IfErr};
ghost use Rattle.word_mem.specs.Memory.{fresh};
ghost use Rattle.op_registers.specs.RegisterFile.{reset_file};
ghost use Rattle.mem_runs.specs.Book.{holding, Stands};
ghost use Rattle.mem_runs.specs.declared.slots.Slot.TheVariants.{Empty};
ghost use Rattle.drv_table.specs.DriverContent.{new_driver};
ghost use Rattle.drv_table.specs.Opening.{opening_book, opening_memory, opening_registers};

use crate::driver::Driver;
use drv_endpoints::Endpoints;
use drv_frames_content::PeriodicPart;
use drv_queues::open_ring;
use drv_table::{Bell, QtdNote, Reserve, Turn};
use mem_runs::RunBook;
use op_registers::Registers;
use std::alloc::Global;
use std::collections::VecDeque;
use usb_base::Memory;
use word_mem::WordMem;

impl Driver {
    /// The driver of a controller just reset and of a memory just built, of at least 2,048 words: the frame list and the halted ring of
    /// one stand in memory and are lent, and the registers are written.
    ///
    /// # Errors
    ///
    /// `Memory` where the reserve finds no room. Nothing changes then.
    pub fn build(
        alloc: Global,
        reserve: &Reserve,
        regs: &mut Registers,
        mem: &mut WordMem,
    ) -> Result<Driver, Memory>
        requires registers { regs.old ≡ reset_file }
        requires memory { mem.old ≡ fresh (length mem.old.words) }
        requires words { 2048 ≤ length mem.old.words }
        ensures driver { IfOk result (λ d. d ≡ new_driver (opening_book (length mem.old.words / 8)) (length mem.old.words / 8) reserve.now) }
        ensures registers { IfOk result (λ _. regs.new ≡ opening_registers) }
        ensures memory { IfOk result (λ _. mem.new ≡ opening_memory (length mem.old.words)) }
        ensures stands { IfOk result (λ d. Stands (holding d.book mem.new)) }
        ensures same { IfErr result (λ _. (regs.new ≡ regs.old) × (mem.new ≡ mem.old)) }
    {
        let mut driver = Self::of_reserve(alloc, reserve, mem)?;
        open_ring(&mut driver.book, mem);
        open_registers(regs);
        Ok(driver)
    }

    /// A driver with this reserve, and with no run yet.
    fn of_reserve(alloc: Global, reserve: &Reserve, mem: &WordMem) -> Result<Driver, Memory>
        requires { mem.now ≡ fresh (length mem.now.words) }
        ensures driver { IfOk result (λ d. d ≡ new_driver (record { slots = replicate (length mem.now.words / 8) Empty; taken = [] }) (length mem.now.words / 8) reserve.now) }
        ensures stands { IfOk result (λ d. Stands (holding d.book mem.now)) }
    {
        let blocks = mem.words() / 8;
        let endpoints = reserve.endpoints as usize;
        let transfers = reserve.transfers as usize;
        let no_note = QtdNote {
            next: 0,
            buffer: [0; 5],
            runs: 0,
            told: 0,
            moved: 0,
        };
        Ok(Driver {
            book: RunBook::build(alloc, mem)?,
            endpoints: Endpoints::build(alloc, endpoints)?,
            transfers: Vec::with_capacity(alloc, transfers)?,
            notes: vec![in alloc; no_note; blocks as usize]?,
            command: None,
            made: 0,
            turn: Turn::Leaving,
            place: 0,
            mends: VecDeque::with_capacity(alloc, 3 * transfers)?,
            harvested: VecDeque::with_capacity(alloc, transfers)?,
            waiting: VecDeque::with_capacity(alloc, endpoints)?,
            rung: VecDeque::with_capacity(alloc, endpoints)?,
            cleared: VecDeque::with_capacity(alloc, endpoints)?,
            bell: Bell::Quiet,
            reports: Vec::with_capacity(alloc, reserve.reports as usize)?,
            store: Vec::with_capacity(alloc, reserve.report_bytes as usize)?,
            room: *reserve,
            periodic: PeriodicPart::build(
                alloc,
                blocks,
                reserve.endpoints,
                reserve.transfers,
                reserve.rules,
            )?,
        })
    }
}

/// The registers of the opening are written, USBCMD last (EHCI 1.0, 4.1).
fn open_registers(regs: &mut Registers)
    requires { regs.old ≡ reset_file }
    ensures { regs.new ≡ opening_registers }
{
    regs.driver_write(0x08, 0);
    regs.driver_write(0x14, 0);
    regs.driver_write(0x18, 0x1000);
    regs.driver_write(0x40, 1);
    regs.driver_write(0x00, 0x0008_0031);
}
