ghost use Rattle.std.specs.Prelude.{◌≡◌, ◌≤◌, ◌<◌, slice_index, IfOk};
ghost use Rattle.script_load.specs.Load.{drawn, draws};

use std::alloc::Global;
use usb_base::Memory;

/// How many draws a load script has: ten periods, and a length and a seed for each of forty endpoints.
const COUNT: usize = 90;

/// The number after one draw.
fn drawn(x: u32) -> u32
    ensures { result ≡ drawn x }
{
    ((x as u64 * 1_664_525 + 1_013_904_223) % 4_294_967_296) as u32
}

/// The draws of a load script.
pub(crate) fn draws(alloc: Global, n: u32) -> Result<Vec<u16>, Memory>
    ensures { IfOk result (λ v. v.items ≡ draws n 90) }
{
    let mut all = Vec::with_capacity(alloc, COUNT)?;
    let mut x = n;
    for _draw in 0..COUNT {
        x = drawn(x);
        all.push_reserved((x / 65_536) as u16);
    }
    Ok(all)
}

/// The draw at a place; 0 behind the last.
pub(crate) fn draw_at(draws: &[u16], i: usize) -> u32
    ensures draw { result ≡ slice_index draws.now i }
    ensures small { result ≤ 65535 }
{
    match draws.get(i) {
        Some(draw) => *draw as u32,
        None => 0,
    }
}
