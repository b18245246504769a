//! The transfers of a command.
ghost use Rattle.std.specs.Prelude.{◌≡◌, take, drop};

use drv_table::Transfer;

/// These transfers from place `from` on.
fn from_place(transfers: &[Transfer], from: usize) -> &[Transfer]
    ensures { result.now ≡ drop from transfers.now }
{
    if from >= transfers.len() {
        return &[];
    }
    &transfers[from..]
}

/// The first `count` of these transfers.
pub(crate) fn up_to(transfers: &[Transfer], count: usize) -> &[Transfer]
    ensures { result.now ≡ take count transfers.now }
{
    if count >= transfers.len() {
        return transfers;
    }
    &transfers[..count]
}

/// The `count` transfers from number `t` on, as far as there are so many.
pub fn of_command(transfers: &[Transfer], t: usize, count: u8) -> &[Transfer]
    ensures { result.now ≡ take count (drop t transfers.now) }
{
    up_to(from_place(transfers, t), count as usize)
}

/// These blocks from place `from` on.
pub fn blocks_from(blocks: &[u16], from: usize) -> &[u16]
    ensures { result.now ≡ drop from blocks.now }
{
    if from >= blocks.len() {
        return &[];
    }
    &blocks[from..]
}
