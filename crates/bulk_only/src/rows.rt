ghost use Rattle.std.specs.Prelude.{◌≡◌};
ghost use Rattle.bulk_only.specs.Fronts.{allows, command_rows, fits_rows, is_front, nothing_seen, sees};

use crate::command_block::Operation;

/// What a row of the command block, one byte, allows (Bulk-Only Transport 1.0, 5.1).
#[derive(Clone, Copy, Debug, PartialEq, Eq)]
pub enum BlockRow {
    /// This byte alone.
    Is(u8),
    /// Any byte.
    Any,
    /// The second byte of the data length in bytes: twice the number of blocks, of which there are 1 to 40.
    DataLength,
    /// The flags: 80h where the data go to the host, else 0.
    Flags,
    /// The operation code: 28h is READ (10) and 2Ah WRITE (10), as the flags say.
    Code,
    /// The low byte of the number of blocks: half of the byte of `DataLength`.
    Blocks,
}

/// What rows before have to tell to a later one.
#[derive(Clone, Copy, Debug, PartialEq, Eq)]
pub struct Seen {
    /// The byte of `DataLength`.
    pub half_blocks: u8,
    /// The byte of `Flags`.
    pub flags: u8,
}

/// The 31 rows of a command block, in their order.
const COMMAND_ROWS: [BlockRow; 31] = [
    BlockRow::Is(0x55),
    BlockRow::Is(0x53),
    BlockRow::Is(0x42),
    BlockRow::Is(0x43),
    BlockRow::Any,
    BlockRow::Any,
    BlockRow::Any,
    BlockRow::Any,
    BlockRow::Is(0),
    BlockRow::DataLength,
    BlockRow::Is(0),
    BlockRow::Is(0),
    BlockRow::Flags,
    BlockRow::Is(0),
    BlockRow::Is(10),
    BlockRow::Code,
    BlockRow::Is(0),
    BlockRow::Any,
    BlockRow::Any,
    BlockRow::Any,
    BlockRow::Any,
    BlockRow::Is(0),
    BlockRow::Is(0),
    BlockRow::Blocks,
    BlockRow::Is(0),
    BlockRow::Is(0),
    BlockRow::Is(0),
    BlockRow::Is(0),
    BlockRow::Is(0),
    BlockRow::Is(0),
    BlockRow::Is(0),
];

impl BlockRow {
    /// Whether the row allows this byte.
    fn allows(self, seen: Seen, byte: u8) -> bool
        ensures { result ≡ allows self seen byte }
    {
        match self {
            BlockRow::Is(only) => byte == only,
            BlockRow::Any => true,
            BlockRow::DataLength => 2 <= byte && byte <= 80 && byte % 2 == 0,
            BlockRow::Flags => byte == 0 || byte == 128,
            BlockRow::Code => byte == Operation::of_flags(seen.flags).code(),
            BlockRow::Blocks => byte as u16 + byte as u16 == seen.half_blocks as u16,
        }
    }

    /// What later rows have to know once this one has its byte.
    fn sees(self, seen: Seen, byte: u8) -> Seen
        ensures { result ≡ sees self seen byte }
    {
        match self {
            BlockRow::DataLength => Seen {
                half_blocks: byte,
                ..seen
            },
            BlockRow::Flags => Seen {
                flags: byte,
                ..seen
            },
            BlockRow::Is(_) | BlockRow::Any | BlockRow::Code | BlockRow::Blocks => seen,
        }
    }
}

/// Whether these bytes may stand at the front of rows.
#[tactic(auto, using(crate::proofs::Allowed::fits_step, crate::proofs::Allowed::fits_end))]
fn fits(rows: &[BlockRow], bytes: &[u8]) -> bool
    ensures { result ≡ fits_rows rows.now nothing_seen bytes.now }
{
    let mut seen = Seen {
        half_blocks: 0,
        flags: 0,
    };
    let shorter = usize::min(rows.len(), bytes.len());
    for i in 0..shorter {
        if !rows[i].allows(seen, bytes[i]) {
            return false;
        }
        seen = rows[i].sees(seen, bytes[i]);
    }
    true
}

/// Whether each of these bytes, of which the first 31 count, is allowed in its row of a command block.
#[tactic(auto, unfolding(crate::specs::Fronts::is_front))]
pub(crate) fn are_front(bytes: &[u8]) -> bool
    ensures { result ≡ is_front bytes.now }
{
    fits(&COMMAND_ROWS, bytes)
}
