ghost use Rattle.std.specs.Prelude.{◌≡◌};
ghost use Rattle.bulk_only.specs.Status.{is_signed, status_bytes, status_number, status_of};

/// How a command ended (Bulk-Only Transport 1.0, 5.2, bCSWStatus).
#[derive(Clone, Copy, Debug, PartialEq, Eq)]
pub enum CommandStatus {
    /// It was done.
    Passed,
    /// It wasn't: its blocks don't lie within the disk.
    Failed,
}

/// What a disk says of a command when it is through with it (Bulk-Only Transport 1.0, 5.2).
#[derive(Clone, Copy, Debug, PartialEq, Eq)]
pub struct StatusBlock {
    /// The tag of the command block.
    pub tag: u32,
    /// How many of the bytes asked for or sent don't count.
    pub residue: u32,
    /// How it ended.
    pub status: CommandStatus,
}

impl CommandStatus {
    fn number(self) -> u8
        ensures { result ≡ status_number self }
    {
        match self {
            CommandStatus::Passed => 0,
            CommandStatus::Failed => 1,
        }
    }
}

fn has_signature(bytes: &[u8]) -> bool
    ensures { result ≡ is_signed bytes.now }
{
    matches!(bytes, [0x55, 0x53, 0x42, 0x53, ..])
}

impl StatusBlock {
    /// The 13 bytes of the status block.
    pub fn bytes(&self) -> [u8; 13]
        ensures { result ≡ status_bytes self.now }
    {
        let tag = self.tag.to_le_bytes();
        let residue = self.residue.to_le_bytes();
        let status = self.status.number();
        [
            0x55, 0x53, 0x42, 0x53, tag[0], tag[1], tag[2], tag[3], residue[0], residue[1],
            residue[2], residue[3], status,
        ]
    }

    /// The status block that these bytes are; `None` exactly where they aren't 13, the signature isn't that of a status block or the
    /// status is neither passed nor failed.
    pub fn read(bytes: &[u8]) -> Option<StatusBlock>
        ensures { result ≡ status_of bytes.now }
    {
        if bytes.len() != 13 || !has_signature(bytes) || 1 < bytes[12] {
            return None;
        }
        let status = if bytes[12] == 0 {
            CommandStatus::Passed
        } else {
            CommandStatus::Failed
        };
        Some(StatusBlock {
            tag: u32::from_le_bytes([bytes[4], bytes[5], bytes[6], bytes[7]]),
            residue: u32::from_le_bytes([bytes[8], bytes[9], bytes[10], bytes[11]]),
            status,
        })
    }
}
