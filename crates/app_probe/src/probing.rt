ghost use Rattle.std.specs.Prelude.{◌≡◌, ◌↔◌, ◌≤◌, Err, IfOk, IsTrue};
ghost use Rattle.word_mem.specs.Access.{IsByController};
ghost use Rattle.hc_core.specs.Controller.{content};
ghost use Rattle.image_show.specs.ImageAt.{IsAlignedAt};
ghost use Rattle.app_probe.specs.Probe.{opening_registers, counted, Events, IsProbe, EndsSo};
ghost use Rattle.app_probe.specs.Window.{from_base, lent_from};

use crate::silence::Silence;
use crate::window::Window;
use hc_core::{Controller, HcStep};
use hc_memory::HcMemory;
use image_show::ImageAt;
use op_registers::Registers;
use std::alloc::Global;
use thiserror::Error;
use usb_base::Memory;
use usb_base::limits::MOST_MEMORY;

/// What a controller did with an image.
#[derive(Clone, Copy, Debug, PartialEq, Eq)]
pub struct Probed {
    /// How many of its events weren't Idle.
    pub steps: u32,
    /// How many of its reads and writes were refused, since they were of no word of the image: 0 or 1.
    pub foreign: u64,
    /// Whether it ended in a host system error (EHCI 1.0, 4.15.2.4).
    pub fault: bool,
}

/// Why an image isn't probed.
#[derive(Debug, Drop, Error)]
pub enum ProbeError {
    /// A register of the image, its base or its number of words breaks its range or its alignment.
    #[error("a register, the base or the number of words breaks its range or its alignment")]
    Alignment,
    /// Want of memory for the words.
    #[error("out of memory")]
    Memory(Memory),
}

const USBCMD: u32 = 0x00;

const USBSTS: u32 = 0x04;

const FRINDEX: u32 = 0x0c;

const PERIODICLISTBASE: u32 = 0x14;

const ASYNCLISTADDR: u32 = 0x18;

/// USBCMD: Run, both schedules enabled, an interrupt threshold of 8 microframes (EHCI 1.0, 2.3.1).
const RUN: u32 = 0x0008_0031;

/// USBSTS: Host System Error (EHCI 1.0, 2.3.2).
const HOST_SYSTEM_ERROR: u32 = 0x10;

/// Whether the registers of an image, its base and its number of words keep their ranges and alignments.
fn is_aligned(image: &ImageAt) -> bool
    ensures { IsTrue result ↔ IsAlignedAt image.now }
{
    let words = image.words.as_slice().len();
    image.frindex <= 0x3fff
        && image.list_base % 4096 == 0
        && image.async_at % 32 == 0
        && image.base % 4096 == 0
        && words % 1024 == 0
        && words >= 1024
        && words <= MOST_MEMORY as usize
        && image.base as u64 + 4 * words as u64 <= 0xffff_ffff
}

/// Registers after a reset, then those of the image, and the controller runs.
fn opened(image: &ImageAt) -> Registers
    ensures { result ≡ opening_registers image.now }
{
    let mut regs = Registers::reset();
    regs.driver_write(FRINDEX, image.frindex as u32);
    regs.driver_write(PERIODICLISTBASE, image.list_base);
    regs.driver_write(ASYNCLISTADDR, image.async_at);
    regs.driver_write(USBCMD, RUN);
    regs
}

/// Whether a host system error stands.
fn has_failed(regs: &Registers) -> bool
    ensures { result ≡ regs.now.host_system_error }
{
    match regs.driver_read(USBSTS) {
        Some(status) => status & HOST_SYSTEM_ERROR == HOST_SYSTEM_ERROR,
        None => false,
    }
}

/// The steps that an event is.
fn steps_of(step: HcStep) -> u32
    ensures steps { result ≡ counted step }
    ensures few { result ≤ 1 }
{
    match step {
        HcStep::Idle => 0,
        _ => 1,
    }
}

/// Makes n events, and tells how many of them weren't Idle.
#[tactic(auto, using(word_mem::proofs::ByController::by_nothing, word_mem::proofs::ByController::by_both))]
fn go<M: HcMemory>(controller: &mut Controller, regs: &mut Registers, mem: &mut M, n: u32) -> u32
    ensures made { Events (content controller.old regs.old (M.mem mem.old)) n result (content controller.new regs.new (M.mem mem.new)) }
    ensures only_lent { IsByController (M.mem mem.old) (M.mem mem.new) }
{
    let mut wire = Silence;
    let mut steps = 0;
    for _event in 0..n {
        steps += steps_of(controller.step(regs, mem, &mut wire));
    }
    steps
}

/// What n events are over these words.
fn run(image: &ImageAt, mem: &mut Window, n: u32) -> Probed
    requires { from_base mem.old.base mem.old.mem ≡ lent_from image.now.base image.now.words }
    ensures { IsProbe image.now n result }
{
    let mut regs = opened(image);
    let mut controller = Controller::new();
    let steps = go(&mut controller, &mut regs, mem, n);
    Probed {
        steps,
        foreign: mem.foreign(),
        fault: has_failed(&regs),
    }
}

/// What n events of a controller are over the words of an image, all of them Lent to it at their addresses, from the image's registers on: with reset
/// registers, FRINDEX, PERIODICLISTBASE and ASYNCLISTADDR are those of the image, and USBCMD is written 00080031h. On the wire everything
/// is silent. The image is left as it is.
///
/// A read or write of what is no word of the image is refused: it is counted once, nothing is changed by it, and it ends in a host system
/// error, as does a structure that can't be read. From there on the controller is Idle.
///
/// # Errors
///
/// `Alignment` exactly where a register of the image, its base or its number of words breaks its range or its alignment; that is never so
/// for an image that `decode_any` gave. `Memory` where the words find no room.
pub fn probe(alloc: Global, image: &ImageAt, n: u32) -> Result<Probed, ProbeError>
    ensures alignment { (result ≡ Err ProbeError.Alignment) ↔ (IsAlignedAt image.now → ⊥) }
    ensures run { IfOk result (λ p. IsProbe image.now n p) }
    ensures end { IfOk result (λ p. EndsSo n p) }
{
    if !is_aligned(image) {
        return Err(ProbeError::Alignment);
    }
    match Window::of(alloc, image) {
        Ok(mut mem) => Ok(run(image, &mut mem, n)),
        Err(memory) => Err(ProbeError::Memory(memory)),
    }
}
