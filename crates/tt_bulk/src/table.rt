ghost use Rattle.std.specs.Prelude.{◌≡◌};
ghost use Rattle.tt_bulk.specs.Rows.{start_row as start_row_of_stands, complete_row as complete_row_of_stands};

use crate::rows::{BufferIndex, CompleteRow, Stand, StartRow};

/// The row of a start-split, by how the two buffers stand to its key.
pub fn start_row(first: Stand, second: Stand) -> StartRow
    ensures { result ≡ start_row_of_stands first second }
{
    match (first, second) {
        (Stand::Pending | Stand::Ready, _) | (_, Stand::Pending | Stand::Ready) => {
            StartRow::Repeated
        }
        (Stand::Old, _) => StartRow::Takes(BufferIndex::First),
        (_, Stand::Old) => StartRow::Takes(BufferIndex::Second),
        (Stand::Free, _) => StartRow::Takes(BufferIndex::First),
        (_, Stand::Free) => StartRow::Takes(BufferIndex::Second),
        (Stand::Spare, _) => StartRow::Takes(BufferIndex::First),
        (_, Stand::Spare) => StartRow::Takes(BufferIndex::Second),
        (Stand::Busy, Stand::Busy) => StartRow::Full,
    }
}

/// The row of a complete-split, by how the two buffers stand to its key.
pub fn complete_row(first: Stand, second: Stand) -> CompleteRow
    ensures { result ≡ complete_row_of_stands first second }
{
    match (first, second) {
        (Stand::Pending, _) | (_, Stand::Pending) => CompleteRow::Waits,
        (Stand::Ready | Stand::Old, _) => CompleteRow::Gives(BufferIndex::First),
        (_, Stand::Ready | Stand::Old) => CompleteRow::Gives(BufferIndex::Second),
        _ => CompleteRow::Unknown,
    }
}
