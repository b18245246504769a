ghost use Rattle.std.specs.Prelude.{◌≡◌, ◌≢◌, IfOk};
ghost use Rattle.script_text.specs.Faults.{Spells};
ghost use Rattle.script_fits.specs.Fits.{IsFit};
ghost use Rattle.bus_world.specs.AtWork.{StandingAtWork};
ghost use Rattle.app_ends.specs.Ends.{IsWriteFault, WritesNothing};
ghost use Rattle.app_forms.specs.Output.{IsAnswer, RunOf};
ghost use Rattle.bus_world.specs.RunsAtWork.{IsRunOfAtWork};

use crate::form::Form;
use crate::refusing::refuse_script;
use app_ends::Status;
use bus_world::World;
use image_codec::{Image, encode};
use script_fits::read;
use script_text::TextError;
use script_types::Script;
use std::alloc::Global;
use usb_base::{Memory, Sink};

/// The world of a script after its action lines.
pub(crate) fn world_of(alloc: Global, script: &Script) -> Result<World, Memory>
    requires { IsFit script.now }
    ensures { IfOk result (λ w. IsRunOfAtWork script.now w) }
{
    let mut world = World::build(alloc, script)?;
    world.run(script);
    Ok(world)
}

/// Prints the report of a world.
fn report<K: Sink>(input: &[u8], world: &World, sink: &mut K) -> Status
    requires { RunOf IsRunOfAtWork input.now world.now }
    ensures answer { IsAnswer IsRunOfAtWork Form.Run result input.now (K.written sink.old) (K.written sink.new) }
    ensures end { (result ≢ Status.Words) × (result ≢ Status.ReadFault) }
    ensures nothing { WritesNothing result → sink.new ≡ sink.old }
    ensures fault { IsWriteFault result (K.faults sink.old) (K.faults sink.new) }
{
    match world.print(sink) {
        Ok(()) => Status::Ok,
        Err(_) => Status::WriteFault,
    }
}

/// Runs a script and prints its report.
fn run_script<K: Sink>(alloc: Global, input: &[u8], script: &Script, sink: &mut K) -> Status
    requires spelled { Spells input.now script.now }
    requires fits { IsFit script.now }
    ensures answer { IsAnswer IsRunOfAtWork Form.Run result input.now (K.written sink.old) (K.written sink.new) }
    ensures end { (result ≢ Status.Words) × (result ≢ Status.ReadFault) }
    ensures nothing { WritesNothing result → sink.new ≡ sink.old }
    ensures fault { IsWriteFault result (K.faults sink.old) (K.faults sink.new) }
{
    match world_of(alloc, script) {
        Ok(world) => report(input, &world, sink),
        Err(_) => Status::Memory,
    }
}

/// The form `run`: the report of the script that the input spells, or the line of its first fault. All memory is taken before the first
/// write.
pub fn run<K: Sink>(alloc: Global, input: &[u8], sink: &mut K) -> Status
    ensures answer { IsAnswer IsRunOfAtWork Form.Run result input.now (K.written sink.old) (K.written sink.new) }
    ensures end { (result ≢ Status.Words) × (result ≢ Status.ReadFault) }
    ensures nothing { WritesNothing result → sink.new ≡ sink.old }
    ensures fault { IsWriteFault result (K.faults sink.old) (K.faults sink.new) }
{
    match read(alloc, input) {
        Ok(script) => run_script(alloc, input, &script, sink),
        Err(TextError::Fault { line, why }) => refuse_script(input, line, why, sink),
        Err(TextError::Memory(_)) => Status::Memory,
    }
}

/// Writes the image of a world.
fn write_image<K: Sink>(alloc: Global, input: &[u8], world: &World, sink: &mut K) -> Status
    requires { RunOf IsRunOfAtWork input.now world.now }
    ensures answer { IsAnswer IsRunOfAtWork Form.Image result input.now (K.written sink.old) (K.written sink.new) }
    ensures end { (result ≢ Status.Words) × (result ≢ Status.ReadFault) }
    ensures nothing { WritesNothing result → sink.new ≡ sink.old }
    ensures fault { IsWriteFault result (K.faults sink.old) (K.faults sink.new) }
{
    let image = match world.image(alloc) {
        Ok(image) => image,
        Err(_) => return Status::Memory,
    };
    match encode(&image, sink) {
        Ok(()) => Status::Ok,
        Err(_) => Status::WriteFault,
    }
}

/// Runs a script and writes the image of memory afterwards.
fn image_script<K: Sink>(alloc: Global, input: &[u8], script: &Script, sink: &mut K) -> Status
    requires spelled { Spells input.now script.now }
    requires fits { IsFit script.now }
    ensures answer { IsAnswer IsRunOfAtWork Form.Image result input.now (K.written sink.old) (K.written sink.new) }
    ensures end { (result ≢ Status.Words) × (result ≢ Status.ReadFault) }
    ensures nothing { WritesNothing result → sink.new ≡ sink.old }
    ensures fault { IsWriteFault result (K.faults sink.old) (K.faults sink.new) }
{
    match world_of(alloc, script) {
        Ok(world) => write_image(alloc, input, &world, sink),
        Err(_) => Status::Memory,
    }
}

/// The form `image`: the image of memory after the run of the script that the input spells, or the line of its first fault. All memory
/// is taken before the first write.
pub fn image<K: Sink>(alloc: Global, input: &[u8], sink: &mut K) -> Status
    ensures answer { IsAnswer IsRunOfAtWork Form.Image result input.now (K.written sink.old) (K.written sink.new) }
    ensures end { (result ≢ Status.Words) × (result ≢ Status.ReadFault) }
    ensures nothing { WritesNothing result → sink.new ≡ sink.old }
    ensures fault { IsWriteFault result (K.faults sink.old) (K.faults sink.new) }
{
    match read(alloc, input) {
        Ok(script) => image_script(alloc, input, &script, sink),
        Err(TextError::Fault { line, why }) => refuse_script(input, line, why, sink),
        Err(TextError::Memory(_)) => Status::Memory,
    }
}
