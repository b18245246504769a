ghost use Rattle.std.specs.Prelude.{◌≡◌, ◌≢◌, ℕ, ◌↔◌, map, string_bytes, IfSome};
ghost use Rattle.app_ends.specs.Ends.{IsFault, IsWriteFault, WritesNothing};
ghost use Rattle.app_ends.specs.Input.{input_of};
ghost use Rattle.app_forms.specs.Form.{AreWordsOf, AreNoForm};
ghost use Rattle.app_forms.specs.Output.{IsAnswer, IsLoad, IsProgram, LeavesAs, Leaves};
ghost use Rattle.bus_world.specs.RunsAtWork.{IsRunOfAtWork};

use app_ends::{Status, Unread, read_input};
use app_forms::{Form, check, dump, form_of, image, load, run};
use std::alloc::Global;
use usb_base::{Sink, Source};

/// The program on these words (without its own name), which reads from the source and writes to the sink.
///
/// It reads all that the source has, or its first 1,048,601 bytes, and writes only once all of the input was read; for `load` it reads
/// nothing. Its words, its statuses and what it writes are those of `ehci`. Of a run of a script `output` says here that it was carried out
/// as far as each of its microframes ended within 67,108,864 turns; that all of them do where the script clears no halt is a law.
///
/// - `Words` exactly where the words have none of the forms; nothing is read or written.
/// - `ReadFault` exactly where a read failed, which is the last one: the source's count of faults rose by one. Nothing is written.
/// - `Refused` only where the input isn't what the form reads; its one line is written.
/// - `WriteFault` exactly where a write failed, which is the last one: the sink's count of faults rose by one. A front part of
///   the output is written.
/// - `Memory` only before the first write.
pub fn ehci_machine<S: Source, K: Sink>(
    alloc: Global,
    words: &[String],
    source: &mut S,
    sink: &mut K,
) -> Status
    ensures words { (result ≡ Status.Words) ↔ AreNoForm (map string_bytes words.now) }
    ensures untouched { result ≡ Status.Words → (source.new ≡ source.old) × (sink.new ≡ sink.old) }
    ensures unread { (n : ℕ) → AreWordsOf (map string_bytes words.now) (Form.Load n) → source.new ≡ source.old }
    ensures load { IsLoad IsRunOfAtWork (map string_bytes words.now) result (K.written sink.old) (K.written sink.new) }
    ensures output { IfSome (S.left source.old) (λ xs.
        IsProgram IsRunOfAtWork (map string_bytes words.now) result (input_of xs) (K.written sink.old) (K.written sink.new)) }
    ensures left { IfSome (S.left source.old) (λ xs. Leaves (map string_bytes words.now) result xs (S.left source.new)) }
    ensures nothing { WritesNothing result → sink.new ≡ sink.old }
    ensures read { IsFault result (S.faults source.old) (S.faults source.new) }
    ensures write { IsWriteFault result (K.faults sink.old) (K.faults sink.new) }
{
    match form_of(words) {
        None => Status::Words,
        Some(Form::Load(n)) => load(alloc, n, sink),
        Some(form) => read_and_answer(alloc, form, source, sink),
    }
}

/// The answer of a form that reads to all that the source has, or to its first 1,048,601 bytes.
fn read_and_answer<S: Source, K: Sink>(
    alloc: Global,
    form: Form,
    source: &mut S,
    sink: &mut K,
) -> Status
    requires { (n : ℕ) → form ≢ Form.Load n }
    ensures answer { IfSome (S.left source.old) (λ xs.
        IsAnswer IsRunOfAtWork form result (input_of xs) (K.written sink.old) (K.written sink.new)) }
    ensures left { IfSome (S.left source.old) (λ xs. LeavesAs form result xs (S.left source.new)) }
    ensures end { result ≢ Status.Words }
    ensures nothing { WritesNothing result → sink.new ≡ sink.old }
    ensures read { IsFault result (S.faults source.old) (S.faults source.new) }
    ensures write { IsWriteFault result (K.faults sink.old) (K.faults sink.new) }
{
    let input = match read_input(alloc, source) {
        Ok(input) => input,
        Err(Unread::Fault) => return Status::ReadFault,
        Err(Unread::Memory) => return Status::Memory,
    };
    answer(alloc, form, input.as_slice(), sink)
}

/// The answer of a form to an input.
fn answer<K: Sink>(alloc: Global, form: Form, input: &[u8], sink: &mut K) -> Status
    ensures answer { IsAnswer IsRunOfAtWork form result input.now (K.written sink.old) (K.written sink.new) }
    ensures end { (result ≢ Status.Words) × (result ≢ Status.ReadFault) }
    ensures nothing { WritesNothing result → sink.new ≡ sink.old }
    ensures fault { IsWriteFault result (K.faults sink.old) (K.faults sink.new) }
{
    match form {
        Form::Run => run(alloc, input, sink),
        Form::Image => image(alloc, input, sink),
        Form::Check => check(alloc, input, sink),
        Form::Dump => dump(alloc, input, sink),
        Form::Load(n) => load(alloc, n, sink),
    }
}
