ghost use Rattle.std.specs.Prelude.{◌≡◌, ◌≤◌, ◌<◌, vec_len, IfOk, IfErr, IfSome, OnOk, OnErr, Some};
ghost use Rattle.usb_base.specs.Outside.{one_more};
ghost use Rattle.app_ends.specs.Ends.{IsReadInPart};
ghost use Rattle.app_ends.specs.Input.{input_of, input_limit, rest_of, ReadsMore, ReadsAtMostMore};
ghost use Rattle.app_ends.specs.declared.reading.Unread.TheVariants.{Fault, Memory};

use std::alloc::Global;
use usb_base::Source;

/// Why the input wasn't read.
#[derive(Clone, Copy, Debug, PartialEq, Eq)]
pub enum Unread {
    /// The source failed.
    Fault,
    /// Want of memory.
    Memory,
}

const CHUNK: usize = 4096;

const LIMIT: usize = 1_048_601;

/// Reads all that the source has left, or its first 1,048,601 bytes where it has more. `Fault` comes of the first read that
/// fails, and of nothing else.
pub fn read_input<S: Source>(alloc: Global, source: &mut S) -> Result<Vec<u8>, Unread>
    ensures input { IfOk result (λ v. IfSome (S.left source.old) (λ xs. v.items ≡ input_of xs)) }
    ensures left { OnOk result (IfSome (S.left source.old) (λ xs. S.left source.new ≡ Some (rest_of xs))) }
    ensures part { OnErr result (IfSome (S.left source.old) (λ xs. IsReadInPart xs (S.left source.new))) }
    ensures stays { OnOk result (S.faults source.new ≡ S.faults source.old) }
    ensures fault { IfErr result (λ why. why ≡ Fault → S.faults source.new ≡ one_more (S.faults source.old)) }
    ensures memory { IfErr result (λ why. why ≡ Memory → S.faults source.new ≡ S.faults source.old) }
{
    let mut input = Vec::new(alloc);
    for _turn in 0..LIMIT {
        if input.len() >= LIMIT {
            return Ok(input);
        }
        if read_more(source, &mut input)? == 0 {
            return Ok(input);
        }
    }
    Ok(input)
}

fn read_more<S: Source>(source: &mut S, input: &mut Vec<u8>) -> Result<usize, Unread>
    requires { vec_len input.old < input_limit }
    ensures more { IfOk result (λ n. ReadsMore (S.left source.old) (S.left source.new) input.old.items input.new.items n) }
    ensures bound { vec_len input.new ≤ input_limit }
    ensures stays { OnOk result (S.faults source.new ≡ S.faults source.old) }
    ensures fault { IfErr result (λ why. why ≡ Fault → S.faults source.new ≡ one_more (S.faults source.old)) }
    ensures memory { IfErr result (λ why. why ≡ Memory → S.faults source.new ≡ S.faults source.old) }
    ensures lost { OnErr result (ReadsAtMostMore (S.left source.old) (S.left source.new) input.old.items) }
{
    let mut chunk = [0u8; CHUNK];
    let room = usize::min(CHUNK, LIMIT - input.len());
    let n = match source.read(&mut chunk[..room]) {
        Ok(n) => n,
        Err(_) => return Err(Unread::Fault),
    };
    match input.extend_from_slice(&chunk[..n]) {
        Ok(()) => Ok(n),
        Err(_) => Err(Unread::Memory),
    }
}
