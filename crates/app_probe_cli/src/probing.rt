ghost use Rattle.std.specs.Prelude.{◌≡◌, ◌≢◌, ◌↔◌, ◌⊎◌, None, Some, map, string_bytes, IfSome};
ghost use Rattle.image_show.specs.ImageAt.{any_fault, any_image, IsAlignedAt};
ghost use Rattle.app_probe.specs.Probe.{IsProbe, EndsSo};
ghost use Rattle.app_ends.specs.Ends.{IsFault, IsLeft, IsWriteFault, WritesNothing};
ghost use Rattle.app_ends.specs.Input.{input_of};
ghost use Rattle.app_probe_cli.specs.Output.{events_of, IsAnswer, IsProgram};

use crate::line::line_of;
use app_ends::{Status, Unread, read_input};
use app_probe::{ProbeError, Probed, probe};
use image_codec::{ImageError, Refusal};
use image_show::{ImageAt, decode_any, print_refusal};
use script_forms::number_of;
use std::alloc::Global;
use usb_base::{Sink, Source, write_all};

/// The number of events that the words ask for; `None` where they are other than one decimal number below 4,294,967,296.
fn events_of(words: &[String]) -> Option<u32>
    ensures { result ≡ events_of (map string_bytes words.now) }
{
    match words {
        [word] => number_of(word.as_bytes()),
        _ => None,
    }
}

/// Writes what a controller did.
fn write_probed<K: Sink>(
    alloc: Global,
    n: u32,
    input: &[u8],
    probed: &Probed,
    sink: &mut K,
) -> Status
    requires sound { any_fault input.now ≡ None }
    requires probe { IsProbe (any_image input.now) n probed.now }
    requires end { EndsSo n probed.now }
    ensures answer { IsAnswer n result input.now (K.written sink.old) (K.written sink.new) }
    ensures end { (result ≢ Status.Words) × (result ≢ Status.ReadFault) }
    ensures nothing { WritesNothing result → sink.new ≡ sink.old }
    ensures fault { IsWriteFault result (K.faults sink.old) (K.faults sink.new) }
{
    let line = match line_of(alloc, probed) {
        Ok(line) => line,
        Err(_) => return Status::Memory,
    };
    match write_all(sink, line.as_bytes()) {
        Ok(()) => Status::Ok,
        Err(_) => Status::WriteFault,
    }
}

/// Probes the image that the input is.
fn probe_image<K: Sink>(
    alloc: Global,
    n: u32,
    input: &[u8],
    image: &ImageAt,
    sink: &mut K,
) -> Status
    requires sound { any_fault input.now ≡ None }
    requires image { image.now ≡ any_image input.now }
    requires aligned { IsAlignedAt image.now }
    ensures answer { IsAnswer n result input.now (K.written sink.old) (K.written sink.new) }
    ensures end { (result ≢ Status.Words) × (result ≢ Status.ReadFault) }
    ensures nothing { WritesNothing result → sink.new ≡ sink.old }
    ensures fault { IsWriteFault result (K.faults sink.old) (K.faults sink.new) }
{
    match probe(alloc, image, n) {
        Ok(probed) => write_probed(alloc, n, input, &probed, sink),
        Err(ProbeError::Memory(_)) => Status::Memory,
        Err(ProbeError::Alignment) => unreachable!(),
    }
}

/// Refuses an input that is no image, by the line of what is wrong with it first.
fn refuse<K: Sink>(n: u32, input: &[u8], refusal: Refusal, sink: &mut K) -> Status
    requires { any_fault input.now ≡ Some refusal }
    ensures answer { IsAnswer n result input.now (K.written sink.old) (K.written sink.new) }
    ensures end { (result ≡ Status.Refused) ⊎ (result ≡ Status.WriteFault) }
    ensures nothing { WritesNothing result → sink.new ≡ sink.old }
    ensures fault { IsWriteFault result (K.faults sink.old) (K.faults sink.new) }
{
    match print_refusal(refusal, sink) {
        Ok(()) => Status::Refused,
        Err(_) => Status::WriteFault,
    }
}

/// The answer to an input. All memory is taken before the first write.
fn probe_input<K: Sink>(alloc: Global, n: u32, input: &[u8], sink: &mut K) -> Status
    ensures answer { IsAnswer n result input.now (K.written sink.old) (K.written sink.new) }
    ensures end { (result ≢ Status.Words) × (result ≢ Status.ReadFault) }
    ensures nothing { WritesNothing result → sink.new ≡ sink.old }
    ensures fault { IsWriteFault result (K.faults sink.old) (K.faults sink.new) }
{
    match decode_any(alloc, input) {
        Ok(image) => probe_image(alloc, n, input, &image, sink),
        Err(ImageError::Refused { offset, why }) => {
            refuse(n, input, Refusal { offset, why }, sink)
        }
        Err(ImageError::Memory(_)) => Status::Memory,
    }
}

/// The program on these words (without its own name): their one number of events over the image that it reads from the source.
///
/// It reads all that the source has, or its first 1,048,601 bytes, and writes only once all of the input was read.
///
/// - `Words` exactly where the words are no number of events; nothing is read or written.
/// - `ReadFault` exactly where a read failed, which is the last one: the source's count of faults rose by one. Nothing is written.
/// - `Refused` only where the input is no image; its one line is written.
/// - `WriteFault` exactly where a write failed, which is the last one: the sink's count of faults rose by one. A front part of the
///   output is written.
/// - `Memory` only before the first write.
pub fn ehci_probe<S: Source, K: Sink>(
    alloc: Global,
    words: &[String],
    source: &mut S,
    sink: &mut K,
) -> Status
    ensures words { (result ≡ Status.Words) ↔ (events_of (map string_bytes words.now) ≡ None) }
    ensures untouched { result ≡ Status.Words → (source.new ≡ source.old) × (sink.new ≡ sink.old) }
    ensures output { IfSome (S.left source.old) (λ xs. IsProgram (events_of (map string_bytes words.now)) result (input_of xs) (K.written sink.old) (K.written sink.new)) }
    ensures left { IfSome (S.left source.old) (λ xs. IsLeft result xs (S.left source.new)) }
    ensures nothing { WritesNothing result → sink.new ≡ sink.old }
    ensures read { IsFault result (S.faults source.old) (S.faults source.new) }
    ensures write { IsWriteFault result (K.faults sink.old) (K.faults sink.new) }
{
    let n = match events_of(words) {
        Some(n) => n,
        None => return Status::Words,
    };
    let input = match read_input(alloc, source) {
        Ok(input) => input,
        Err(Unread::Fault) => return Status::ReadFault,
        Err(Unread::Memory) => return Status::Memory,
    };
    probe_input(alloc, n, input.as_slice(), sink)
}
