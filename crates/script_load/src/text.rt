ghost use Rattle.std.specs.Prelude.{◌≡◌, ◌≤◌, ◌++◌, IfOk};
ghost use Rattle.script_load.specs.Load.{part_text, all_parts, load_text};

use crate::draws::draws;
use crate::lines::piece;
use crate::parts::LoadPart;
use std::alloc::Global;
use usb_base::Memory;

/// What stands before the devices: as much memory as a script may have (`MOST_MEMORY` words), and two hubs.
const HEAD: &[u8] = b"ehci 1\nmem 262144\nhub 101 5\nhub 102 5\n";

/// Appends a part of the script, of so many devices or endpoints.
fn put_part(text: &mut Vec<u8>, part: LoadPart, draws: &[u16], count: u32) -> Result<(), Memory>
    requires few { count ≤ 40 }
    requires devices { part ≡ LoadPart.Devices → count ≤ 20 }
    ensures { IfOk result (λ _. text.new.items ≡ text.old.items ++ part_text part draws.now count) }
{
    for i in 0..count {
        text.extend_from_slice(piece(part, draws, i).as_bytes())?;
    }
    Ok(())
}

/// The script with these draws.
fn all_parts(alloc: Global, draws: &[u16]) -> Result<Vec<u8>, Memory>
    ensures { IfOk result (λ text. text.items ≡ all_parts draws.now) }
{
    let mut text = Vec::from_slice(alloc, HEAD)?;
    put_part(&mut text, LoadPart::Devices, draws, 20)?;
    put_part(&mut text, LoadPart::Endpoints, draws, 40)?;
    put_part(&mut text, LoadPart::Replies, draws, 40)?;
    put_part(&mut text, LoadPart::Opens, draws, 40)?;
    put_part(&mut text, LoadPart::Transfers, draws, 40)?;
    text.extend_from_slice(b"order m 4000\n")?;
    Ok(text)
}

/// The text of the load script of a number.
///
/// # Errors
///
/// `Memory` where the text finds no room.
pub fn load_text(alloc: Global, n: u32) -> Result<Vec<u8>, Memory>
    ensures { IfOk result (λ text. text.items ≡ load_text n) }
{
    let draws = draws(alloc, n)?;
    all_parts(alloc, draws.as_slice())
}
