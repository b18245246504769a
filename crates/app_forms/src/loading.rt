ghost use Rattle.std.specs.Prelude.{◌≡◌, ◌≢◌, ℕ, List};
ghost use Rattle.script_text.specs.Faults.{Spells};
ghost use Rattle.script_fits.specs.Fits.{IsFit};
ghost use Rattle.script_load.specs.Load.{load_text};
ghost use Rattle.app_ends.specs.Ends.{IsWriteFault, WritesNothing};
ghost use Rattle.app_forms.specs.Output.{IsAnswer, IsLoadEnd, RunOf};
ghost use Rattle.bus_world.specs.RunsAtWork.{IsRunOfAtWork};

use crate::form::Form;
use crate::running::world_of;
use app_ends::Status;
use bus_world::World;
use report_load::{print_summary, summary_of};
use script_fits::read;
use script_load::load_text;
use script_text::TextError;
use script_types::Script;
use std::alloc::Global;
use usb_base::Sink;

/// Prints what the report of a world counts.
fn summarize<K: Sink>(n: u32, world: &World, sink: &mut K) -> Status
    requires { RunOf IsRunOfAtWork (load_text n) world.now }
    ensures answer { (input : List ℕ) → IsAnswer IsRunOfAtWork (Form.Load n) result input (K.written sink.old) (K.written sink.new) }
    ensures end { (result ≢ Status.Words) × (result ≢ Status.ReadFault) }
    ensures load { IsLoadEnd result }
    ensures nothing { WritesNothing result → sink.new ≡ sink.old }
    ensures fault { IsWriteFault result (K.faults sink.old) (K.faults sink.new) }
{
    match print_summary(n, &summary_of(world), sink) {
        Ok(()) => Status::Ok,
        Err(_) => Status::WriteFault,
    }
}

/// Runs the load script of a number and prints what its report counts.
fn load_world<K: Sink>(alloc: Global, n: u32, script: &Script, sink: &mut K) -> Status
    requires spelled { Spells (load_text n) script.now }
    requires fits { IsFit script.now }
    ensures answer { (input : List ℕ) → IsAnswer IsRunOfAtWork (Form.Load n) result input (K.written sink.old) (K.written sink.new) }
    ensures end { (result ≢ Status.Words) × (result ≢ Status.ReadFault) }
    ensures load { IsLoadEnd result }
    ensures nothing { WritesNothing result → sink.new ≡ sink.old }
    ensures fault { IsWriteFault result (K.faults sink.old) (K.faults sink.new) }
{
    match world_of(alloc, script) {
        Ok(world) => summarize(n, &world, sink),
        Err(_) => Status::Memory,
    }
}

/// The form `load`: what the report counts after the run of the load script of n. Nothing is read, and all memory is taken before the
/// first write.
pub fn load<K: Sink>(alloc: Global, n: u32, sink: &mut K) -> Status
    ensures answer { (input : List ℕ) → IsAnswer IsRunOfAtWork (Form.Load n) result input (K.written sink.old) (K.written sink.new) }
    ensures end { (result ≢ Status.Words) × (result ≢ Status.ReadFault) }
    ensures load { IsLoadEnd result }
    ensures nothing { WritesNothing result → sink.new ≡ sink.old }
    ensures fault { IsWriteFault result (K.faults sink.old) (K.faults sink.new) }
{
    let text = match load_text(alloc, n) {
        Ok(text) => text,
        Err(_) => return Status::Memory,
    };
    load_script(alloc, n, text.as_slice(), sink)
}

/// Reads the text of the load script of a number, which has no fault, runs it and prints what its report counts.
fn load_script<K: Sink>(alloc: Global, n: u32, text: &[u8], sink: &mut K) -> Status
    requires { text.now ≡ load_text n }
    ensures answer { (input : List ℕ) → IsAnswer IsRunOfAtWork (Form.Load n) result input (K.written sink.old) (K.written sink.new) }
    ensures end { (result ≢ Status.Words) × (result ≢ Status.ReadFault) }
    ensures load { IsLoadEnd result }
    ensures nothing { WritesNothing result → sink.new ≡ sink.old }
    ensures fault { IsWriteFault result (K.faults sink.old) (K.faults sink.new) }
{
    match read(alloc, text) {
        Ok(script) => load_world(alloc, n, &script, sink),
        Err(TextError::Fault { .. }) => unreachable!(),
        Err(TextError::Memory(_)) => Status::Memory,
    }
}
