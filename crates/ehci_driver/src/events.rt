ghost use Rattle.std.specs.Prelude.{◌≡◌, ◌≤◌, ◌+◌, false, slice_get, drop, [], ◌++◌};
ghost use Rattle.std.specs.VecDeque.{deque_len, deque_capacity};
ghost use Rattle.mem_runs.specs.Book.{holding, Stands, lend_taken, store};
ghost use Rattle.op_registers.specs.Table.{after_write};
ghost use Rattle.drv_table.specs.Rows.{driver_row, after_driver_row, step_of};
ghost use Rattle.drv_table.specs.Commands.{advance, finished, leave_ring};
ghost use Rattle.drv_table.specs.Leaving.{doorbell_command, bell_after};
ghost use Rattle.ehci_driver.specs.Makes.{CanMake};
ghost use Rattle.ehci_driver.specs.Turns.{parts, after_event};
ghost use Rattle.ehci_driver.specs.Written.{OnlyStores};

use crate::driver::Driver;
use drv_endpoints::{event_count, links};
use drv_table::{Bell, Command, DriverRow, DriverStep, Endpoint, Found, Mend, Transfer, Turn};
use op_registers::Registers;
use std::collections::VecDeque;
use word_mem::WordMem;

/// The offsets of USBCMD and USBSTS (EHCI 1.0, 2.3).
const COMMAND: u32 = 0x00;

const STATUS: u32 = 0x04;

/// USBCMD as at the opening, with the doorbell.
const DOORBELL: u32 = 0x0008_0071;

/// Async Advance in USBSTS.
const ADVANCE: u32 = 0x20;

impl Driver {
    /// Makes one event of the driver, and tells its kind: the next event of the unfinished command; else one of the leaving work or one
    /// harvest, by turns; `Rest` where there is neither.
    #[tactic(auto, using(std::proofs::lemmas::Grind::common_steps, crate::proofs::Kept::row_room))]
    pub fn step(&mut self, regs: &mut Registers, mem: &mut WordMem) -> DriverStep
        requires { Stands (holding self.old.book mem.old) }
        ensures kind { result ≡ step_of (driver_row (parts self.old regs.old mem.old)) }
        ensures driver { self.new ≡ (after_event (parts self.old regs.old mem.old)).driver }
        ensures registers { regs.new ≡ (after_event (parts self.old regs.old mem.old)).registers }
        ensures memory { mem.new ≡ (after_event (parts self.old regs.old mem.old)).memory }
        ensures stands { Stands (holding self.new.book mem.new) }
        ensures room { self.new.room ≡ self.old.room }
        ensures words { OnlyStores self.old (driver_row (parts self.old regs.old mem.old)) mem.old mem.new }
    {
        let _words = mem.words();
        let row = self.row(regs, mem);
        self.make(regs, mem, row);
        row.step()
    }

    /// Makes the event that this row tells.
    #[tactic(auto, using(std::proofs::lemmas::Grind::common_steps, crate::proofs::Kept::transfer_registers, crate::proofs::Kept::endpoint_registers, crate::proofs::Kept::unlink_registers, crate::proofs::Kept::removed_registers))]
    pub(crate) fn make(&mut self, regs: &mut Registers, mem: &mut WordMem, row: DriverRow)
        requires stands { Stands (holding self.old.book mem.old) }
        requires can { CanMake self.old row }
        ensures driver { self.new ≡ (after_driver_row row (parts self.old regs.old mem.old)).driver }
        ensures registers { regs.new ≡ (after_driver_row row (parts self.old regs.old mem.old)).registers }
        ensures memory { mem.new ≡ (after_driver_row row (parts self.old regs.old mem.old)).memory }
        ensures stands { Stands (holding self.new.book mem.new) }
    {
        match row {
            // Before its first store: the controller may follow the new link at once (EHCI 1.0, 4.8.1).
            DriverRow::Lend => self.lend(mem),
            // A word at a time, the one that gives the structure last (EHCI 1.0, 4.8.1 and 4.10.2).
            DriverRow::Store(block, at, value) => self.store_word(mem, block, at, value),
            // The overlay of a halted queue is the driver's (EHCI 1.0, 4.10.3).
            DriverRow::Mend(mend) => self.mend(mem, mend),
            // Its qTDs are retired, and the overlay has left them (EHCI 1.0, 4.10.4).
            DriverRow::ReleaseTransfer(t) => self.release_transfer(mem, t),
            // Only after the doorbell was answered (EHCI 1.0, 4.8.2).
            DriverRow::ReleaseEndpoint(e) => self.release_endpoint(mem, e),
            // So that the next answer can be told from this one (EHCI 1.0, 2.3.2).
            DriverRow::ClearAdvance => self.clear_advance(regs),
            // The controller is asked to let go of what left the ring (EHCI 1.0, 4.8.2).
            DriverRow::RingBell => self.ring_bell(regs),
            // Whether it has let go (EHCI 1.0, 4.8.2).
            DriverRow::ReadStatus(heard) => self.read_status(heard),
            // A token that isn't active is the driver's again (EHCI 1.0, 3.5.3).
            DriverRow::Harvest(e, t, found) => self.harvest(mem, e, t, found),
            // Frames far enough ahead that the controller hasn't read their elements (EHCI 1.0, 4.7).
            DriverRow::Frames => self.give_frames(regs.frame_index()),
            // Their links are written first, since one store of a frame's chain gives them (EHCI 1.0, 4.6).
            DriverRow::LendDescriptors => self.lend_descriptors(mem),
            // One store, so that each frame's chain is whole at each moment (EHCI 1.0, 4.6).
            DriverRow::Unlink(t) => self.unlink(mem, t),
            // The frame in which the controller may have had it is over (EHCI 1.0, 4.6).
            DriverRow::ReleaseRemoved(what) => self.release_removed(mem, what),
            // The frame list has no doorbell: FRINDEX tells when a frame is over (EHCI 1.0, 2.3.4).
            DriverRow::ReadFrame(frindex) => self.read_frame(frindex),
            DriverRow::Rest => {}
        }
    }

    /// The runs of the command are lent.
    fn lend(&mut self, mem: &mut WordMem)
        requires { Stands (holding self.old.book mem.old) }
        ensures driver { self.new ≡ advance (record self.old { book = (lend_taken (holding self.old.book mem.old)).book }) }
        ensures memory { mem.new ≡ (lend_taken (holding self.old.book mem.old)).memory }
        ensures stands { Stands (holding self.new.book mem.new) }
    {
        self.book.lend_taken(mem);
        self.advance();
    }

    /// The command stores a word.
    fn store_word(&mut self, mem: &mut WordMem, block: u16, at: u32, value: u32)
        requires { Stands (holding self.old.book mem.old) }
        ensures driver { self.new ≡ advance self.old }
        ensures memory { mem.new ≡ store self.old.book mem.old block at value }
        ensures stands { Stands (holding self.new.book mem.new) }
    {
        self.book.store(mem, block, at, value);
        self.advance();
    }

    /// One more event of the command was made.
    pub(crate) fn advance(&mut self)
        ensures driver { self.new ≡ advance self.old }
        ensures book { self.new.book ≡ self.old.book }
    {
        let Some(command) = self.command else {
            return;
        };
        if self.made < event_count(&command).saturating_sub(1) {
            self.made += 1;
            return;
        }
        if links(&command) {
            self.link_on(command);
            return;
        }
        self.finish(command);
    }

    /// The last event of the command was made.
    pub(crate) fn finish(&mut self, command: Command)
        ensures driver { self.new ≡ finished self.old command }
        ensures book { self.new.book ≡ self.old.book }
    {
        self.command = None;
        self.made = 0;
        match command {
            Command::Open(_) | Command::Publish(_, _) | Command::Chain | Command::Iso(_, _, _) => {}
            Command::Unlink(e, _, _) => self.leave_ring(e),
            Command::Unchain(e) => self.leave_frames(e),
        }
    }

    /// The endpoint of this number left the ring.
    #[tactic(auto, using(std::proofs::lemmas::Grind::common_steps, crate::proofs::Counts::left_ring, crate::proofs::Counts::kept_cancels))]
    fn leave_ring(&mut self, e: usize)
        ensures driver { self.new ≡ leave_ring self.old e (slice_get self.old.endpoints e) }
        ensures book { self.new.book ≡ self.old.book }
    {
        let Some(endpoint) = self.endpoints.get(e) else {
            return;
        };
        if !endpoint.linked {
            return;
        }
        let unlinked = Endpoint {
            linked: false,
            ..endpoint
        };
        self.endpoints.write(e, unlinked);
        self.waiting.push_back_reserved(e);
    }

    /// A stalled control endpoint gets one of its words.
    fn mend(&mut self, mem: &mut WordMem, mend: Mend)
        requires { Stands (holding self.old.book mem.old) }
        ensures driver { self.new ≡ record self.old { mends = drop 1 self.old.mends; turn = Turn.Harvest } }
        ensures memory { mem.new ≡ store self.old.book mem.old mend.queue mend.at mend.value }
        ensures stands { Stands (holding self.new.book mem.new) }
    {
        self.book.store(mem, mend.queue, mend.at, mend.value);
        self.mends.pop_front();
        self.turn = Turn::Harvest;
    }

    /// Async Advance is cleared: the batch that was rung may be given back.
    fn clear_advance(&mut self, regs: &mut Registers)
        ensures driver { self.new ≡ record self.old { cleared = self.old.cleared ++ self.old.rung; rung = []; bell = Bell.Quiet; turn = Turn.Harvest } }
        ensures registers { regs.new ≡ after_write regs.old 0x04 0x20 }
    {
        regs.driver_write(STATUS, ADVANCE);
        move_all(&mut self.rung, &mut self.cleared);
        self.bell = Bell::Quiet;
        self.turn = Turn::Harvest;
    }

    /// The doorbell is set: the batch that waits is rung.
    fn ring_bell(&mut self, regs: &mut Registers)
        ensures driver { self.new ≡ record self.old { rung = self.old.rung ++ self.old.waiting; waiting = []; bell = Bell.Rung; turn = Turn.Harvest } }
        ensures registers { regs.new ≡ after_write regs.old 0x00 doorbell_command }
    {
        regs.driver_write(COMMAND, DOORBELL);
        move_all(&mut self.waiting, &mut self.rung);
        self.bell = Bell::Rung;
        self.turn = Turn::Harvest;
    }

    /// USBSTS was read.
    fn read_status(&mut self, heard: bool)
        ensures { self.new ≡ record self.old { bell = bell_after heard; turn = Turn.Harvest; periodic = record self.old.periodic { status_next = false } } }
    {
        self.periodic.set_reads_status(false);
        self.bell = if heard { Bell::Heard } else { Bell::Rung };
        self.turn = Turn::Harvest;
    }
}

/// Moves everything to the end of another queue, which has room for it.
fn move_all(from: &mut VecDeque<usize>, to: &mut VecDeque<usize>)
    requires { deque_len from.old + deque_len to.old ≤ deque_capacity to.old }
    ensures to { to.new.items ≡ to.old.items ++ from.old.items }
    ensures from { from.new.items ≡ [] }
    ensures long { deque_len to.new ≡ deque_len from.old + deque_len to.old }
    ensures none { deque_len from.new ≡ 0 }
    ensures room { deque_capacity to.new ≡ deque_capacity to.old }
    ensures kept { deque_capacity from.new ≡ deque_capacity from.old }
{
    while let Some(e) = from.pop_front() {
        to.push_back_reserved(e);
    }
}
