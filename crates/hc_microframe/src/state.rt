ghost use Rattle.std.specs.Prelude.{◌≡◌, ◌==◌, not, unwrap_or};
ghost use Rattle.std.specs.Int.RustNames.{bit_and};
ghost use Rattle.op_registers.specs.RegisterFile.{reset_file};
ghost use Rattle.op_registers.specs.Table.{word_at, after_write};
ghost use Rattle.hc_microframe.specs.State.{shown, file_of, cursor_after_write, is_up};

use bitflags::Flags;
use op_registers::{Registers, Status};

const USBCMD: u32 = 0x00;

const USBSTS: u32 = 0x04;

const USBINTR: u32 = 0x08;

const FRINDEX: u32 = 0x0c;

const PERIODICLISTBASE: u32 = 0x14;

const ASYNCLISTADDR: u32 = 0x18;

const CONFIGFLAG: u32 = 0x40;

/// All of a controller between two microframes: the words of its registers (EHCI 1.0, 2.3), and where in the ring it goes on.
#[repr(C)]
#[derive(Clone, Copy, Debug, PartialEq, Eq)]
pub struct State {
    /// USBCMD.
    pub command: u32,
    /// USBSTS.
    pub status: u32,
    /// USBINTR.
    pub interrupt_enable: u32,
    /// FRINDEX.
    pub frame_index: u32,
    /// PERIODICLISTBASE.
    pub list: u32,
    /// ASYNCLISTADDR, as the driver wrote it.
    pub ring: u32,
    /// CONFIGFLAG.
    pub configured: u32,
    /// The byte address of the queue head at which the walk of the ring goes on; 0: at ASYNCLISTADDR.
    pub cursor: u32,
}

/// The registers that have the words of this state. A word counts as its register takes it: bits that it doesn't hold are left out.
pub fn registers_of(state: &State) -> Registers
    ensures { result ≡ file_of state.now }
{
    let mut regs = Registers::reset();
    regs.driver_write(USBINTR, state.interrupt_enable);
    regs.driver_write(FRINDEX, state.frame_index);
    regs.driver_write(PERIODICLISTBASE, state.list);
    regs.driver_write(ASYNCLISTADDR, state.ring);
    regs.driver_write(CONFIGFLAG, state.configured);
    regs.raise(Status::from_bits_retain(state.status));
    regs.driver_write(USBCMD, state.command);
    regs
}

fn word(regs: &Registers, at: u32) -> u32
    ensures { result ≡ unwrap_or (word_at regs.now at) 0 }
{
    regs.driver_read(at).unwrap_or(0)
}

/// The words of these registers, and this place in the ring.
pub fn state_of(regs: &Registers, cursor: u32) -> State
    ensures { result ≡ shown regs.now cursor }
{
    State {
        command: word(regs, USBCMD),
        status: word(regs, USBSTS),
        interrupt_enable: word(regs, USBINTR),
        frame_index: word(regs, FRINDEX),
        list: word(regs, PERIODICLISTBASE),
        ring: word(regs, ASYNCLISTADDR),
        configured: word(regs, CONFIGFLAG),
        cursor,
    }
}

/// A controller after a reset: halted, with a threshold of 8 microframes.
pub fn reset() -> State
    ensures { result ≡ shown reset_file 0 }
{
    state_of(&Registers::reset(), 0)
}

/// What a driver reads at an offset in bytes from the first operational register; all ones where there is no register.
pub fn read(state: &State, at: u32) -> u32
    ensures { result ≡ unwrap_or (word_at (file_of state.now) at) 0xffff_ffff }
{
    registers_of(state).driver_read(at).unwrap_or(0xffff_ffff)
}

/// Where the ring is gone on with after a driver's write: a reset, or a new ASYNCLISTADDR, has it begin anew (EHCI 1.0, 2.3.1 and 2.3.7).
fn cursor_after(cursor: u32, at: u32, word: u32) -> u32
    ensures { result ≡ cursor_after_write cursor at word }
{
    if at == ASYNCLISTADDR || at == USBCMD && word / 2 % 2 == 1 {
        0
    } else {
        cursor
    }
}

/// A driver's write at an offset in bytes from the first operational register; nothing changes where there is no register.
pub fn write(state: &mut State, at: u32, word: u32)
    ensures { state.new ≡ shown (after_write (file_of state.old) at word) (cursor_after_write state.old.cursor at word) }
{
    let mut regs = registers_of(state);
    regs.driver_write(at, word);
    *state = state_of(&regs, cursor_after(state.cursor, at, word));
}

/// Whether the interrupt line is up: a bit of USBSTS stands whose enable stands (EHCI 1.0, 4.15).
pub fn interrupts(state: &State) -> bool
    ensures { result ≡ is_up state.now }
{
    state.status & state.interrupt_enable & 0x3f != 0
}
