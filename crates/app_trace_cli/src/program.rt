ghost use Rattle.std.specs.Prelude.{◌≡◌, ◌≢◌, ◌⊎◌, IfSome, Some};
ghost use Rattle.app_ends.specs.Ends.{IsFault, IsLeft, IsWriteFault, WritesNothing};
ghost use Rattle.app_ends.specs.Input.{input_of};
ghost use Rattle.script_text.specs.Faults.{Spells, first_fault};
ghost use Rattle.script_fits.specs.Fits.{IsFit};
ghost use Rattle.app_trace_cli.specs.Output.{TracesInput, IsAnswer, IsProgram};

use crate::words::choice_of;
use app_ends::{Status, Unread, read_input};
use app_trace::{Choice, trace};
use script_fits::read;
use script_text::{TextError, TextWhy, print_fault};
use script_types::Script;
use std::alloc::Global;
use usb_base::{Sink, Source, write_all};

/// Refuses an input that is no script, by the line of its first fault.
fn refuse<K: Sink>(choice: &Choice, input: &[u8], line: u32, why: TextWhy, sink: &mut K) -> Status
    requires { first_fault input.now ≡ Some (line, why) }
    ensures answer { IsAnswer choice.now result input.now (K.written sink.old) (K.written sink.new) }
    ensures end { (result ≡ Status.Refused) ⊎ (result ≡ Status.WriteFault) }
    ensures nothing { WritesNothing result → sink.new ≡ sink.old }
    ensures fault { IsWriteFault result (K.faults sink.old) (K.faults sink.new) }
{
    match print_fault(line, why, sink) {
        Ok(()) => Status::Refused,
        Err(_) => Status::WriteFault,
    }
}

/// Writes a trace.
fn write<K: Sink>(choice: &Choice, input: &[u8], text: &[u8], sink: &mut K) -> Status
    requires { TracesInput choice.now input.now text.now }
    ensures answer { IsAnswer choice.now result input.now (K.written sink.old) (K.written sink.new) }
    ensures end { (result ≢ Status.Words) × (result ≢ Status.ReadFault) }
    ensures nothing { WritesNothing result → sink.new ≡ sink.old }
    ensures fault { IsWriteFault result (K.faults sink.old) (K.faults sink.new) }
{
    match write_all(sink, text) {
        Ok(()) => Status::Ok,
        Err(_) => Status::WriteFault,
    }
}

/// Runs a script and writes its trace.
fn trace_script<K: Sink>(
    rt: &impl Eprint,
    alloc: Global,
    choice: &Choice,
    input: &[u8],
    script: &Script,
    sink: &mut K,
) -> Status
    requires spelled { Spells input.now script.now }
    requires fits { IsFit script.now }
    ensures answer { IsAnswer choice.now result input.now (K.written sink.old) (K.written sink.new) }
    ensures end { (result ≢ Status.Words) × (result ≢ Status.ReadFault) }
    ensures nothing { WritesNothing result → sink.new ≡ sink.old }
    ensures fault { IsWriteFault result (K.faults sink.old) (K.faults sink.new) }
{
    match trace(rt, alloc, script, choice) {
        Ok(text) => write(choice, input, text.as_slice(), sink),
        Err(_) => Status::Memory,
    }
}

/// The trace of an input, or the line of its first fault. All memory is taken before the first write.
fn answer<K: Sink>(
    rt: &impl Eprint,
    alloc: Global,
    choice: &Choice,
    input: &[u8],
    sink: &mut K,
) -> Status
    ensures answer { IsAnswer choice.now result input.now (K.written sink.old) (K.written sink.new) }
    ensures end { (result ≢ Status.Words) × (result ≢ Status.ReadFault) }
    ensures nothing { WritesNothing result → sink.new ≡ sink.old }
    ensures fault { IsWriteFault result (K.faults sink.old) (K.faults sink.new) }
{
    match read(alloc, input) {
        Ok(script) => trace_script(rt, alloc, choice, input, &script, sink),
        Err(TextError::Fault { line, why }) => refuse(choice, input, line, why, sink),
        Err(TextError::Memory(_)) => Status::Memory,
    }
}

/// The trace on these words (without the program's own name), which reads a script from the source and writes to the sink.
///
/// It reads all that the source has, or its first 1,048,601 bytes, and writes only once the run has ended. With `--progress` a long run says on standard error
/// that it goes on, a line each 1,024 microframes; where that fails nothing else changes.
///
/// - `Words` where `choice_of` finds no choice in the words; nothing is read or written.
/// - `ReadFault` exactly where a read failed, which is the last one. Nothing is written.
/// - `Refused` only where the input is no script; the line of its first fault is written.
/// - `WriteFault` exactly where a write failed, which is the last one. A front part of the output is written.
/// - `Memory` only before the first write.
pub fn ehci_trace<S: Source, K: Sink>(
    rt: &impl Eprint,
    alloc: Global,
    words: &[String],
    source: &mut S,
    sink: &mut K,
) -> Status
    ensures untouched { result ≡ Status.Words → (source.new ≡ source.old) × (sink.new ≡ sink.old) }
    ensures output { IfSome (S.left source.old) (λ xs. IsProgram result (input_of xs) (K.written sink.old) (K.written sink.new)) }
    ensures left { IfSome (S.left source.old) (λ xs. IsLeft result xs (S.left source.new)) }
    ensures nothing { WritesNothing result → sink.new ≡ sink.old }
    ensures read { IsFault result (S.faults source.old) (S.faults source.new) }
    ensures write { IsWriteFault result (K.faults sink.old) (K.faults sink.new) }
{
    let Some(choice) = choice_of(words) else {
        return Status::Words;
    };
    let input = match read_input(alloc, source) {
        Ok(input) => input,
        Err(Unread::Fault) => return Status::ReadFault,
        Err(Unread::Memory) => return Status::Memory,
    };
    answer(rt, alloc, &choice, input.as_slice(), sink)
}
