ghost use Rattle.std.specs.Prelude.{◌≡◌, ◌≤◌, length};
ghost use Rattle.bulk_only.specs.Blocks.{code_of, command_bytes, command_of, data_length, flags_of, operation_of};
ghost use Rattle.bulk_only.specs.Commands.{block_of, size_of};

use crate::rows::are_front;

/// What a command does with blocks of the disk.
#[derive(Clone, Copy, Debug, PartialEq, Eq)]
pub enum Operation {
    /// READ (10): the blocks go to the host.
    Read,
    /// WRITE (10): the blocks come from the host.
    Write,
}

/// A command for a disk, as its command block tells it (Bulk-Only Transport 1.0, 5.1).
#[derive(Clone, Copy, Debug, PartialEq, Eq)]
pub struct CommandBlock {
    /// The tag, which comes back in the status block.
    pub tag: u32,
    /// What is done.
    pub operation: Operation,
    /// The number of the first block, from 0 (the logical block address).
    pub lba: u32,
    /// How many blocks of 512 bytes, 1 to 40.
    pub blocks: u16,
}

impl Operation {
    /// The operation that the flags of a command block tell.
    pub(crate) fn of_flags(flags: u8) -> Operation
        ensures { result ≡ operation_of flags }
    {
        if flags == 128 {
            Operation::Read
        } else {
            Operation::Write
        }
    }

    /// The flags of a command block (bmCBWFlags).
    fn flags(self) -> u8
        ensures { result ≡ flags_of self }
    {
        match self {
            Operation::Read => 0x80,
            Operation::Write => 0,
        }
    }

    /// The operation code.
    pub(crate) fn code(self) -> u8
        ensures { result ≡ code_of self }
    {
        match self {
            Operation::Read => 0x28,
            Operation::Write => 0x2a,
        }
    }
}

impl CommandBlock {
    /// The bytes of the data that are transferred.
    pub fn data_length(&self) -> u32
        ensures { result ≡ data_length self.now }
    {
        let block = *self;
        512 * block.blocks as u32
    }

    /// The 31 bytes of the command block.
    pub fn bytes(&self) -> [u8; 31]
        ensures { result ≡ command_bytes self.now }
    {
        let tag = self.tag.to_le_bytes();
        let length = self.data_length().to_le_bytes();
        let flags = self.operation.flags();
        let code = self.operation.code();
        let lba = self.lba.to_be_bytes();
        let blocks = self.blocks.to_be_bytes();
        [
            0x55, 0x53, 0x42, 0x43, tag[0], tag[1], tag[2], tag[3], length[0], length[1],
            length[2], length[3], flags, 0, 10, code, 0, lba[0], lba[1], lba[2], lba[3], 0,
            blocks[0], blocks[1], 0, 0, 0, 0, 0, 0, 0,
        ]
    }

    /// The command block at the front of these bytes; `None` exactly where they are fewer than 31, or one of the first 31 isn't allowed
    /// in its row (6.2).
    #[tactic(auto, unfolding(crate::specs::Commands::block_of))]
    pub fn read(bytes: &[u8]) -> Option<CommandBlock>
        ensures { result ≡ block_of bytes.now }
    {
        if bytes.len() < 31 || !are_front(bytes) {
            return None;
        }
        Some(CommandBlock::of_bytes(bytes))
    }

    /// What the rows of the first 31 of these bytes say.
    fn of_bytes(bytes: &[u8]) -> CommandBlock
        requires { 31 ≤ length bytes.now }
        ensures { result ≡ command_of bytes.now }
    {
        CommandBlock {
            tag: u32::from_le_bytes([bytes[4], bytes[5], bytes[6], bytes[7]]),
            operation: Operation::of_flags(bytes[12]),
            lba: u32::from_be_bytes([bytes[17], bytes[18], bytes[19], bytes[20]]),
            blocks: u16::from_be_bytes([bytes[22], bytes[23]]),
        }
    }

    /// How many bytes it has on its way to the disk, with the data of a write.
    pub(crate) fn size(&self) -> usize
        ensures { result ≡ size_of self.now }
    {
        let follows = match self.operation {
            Operation::Read => 0,
            Operation::Write => self.data_length() as usize,
        };
        31 + follows
    }
}
