use std::alloc::AllocError;

/// The bytes of a block.
pub(crate) const BLOCK: u32 = 512;

/// A command as it was drawn.
#[derive(Clone, Copy)]
pub(crate) struct Command {
    pub(crate) tag: u32,
    pub(crate) reads: bool,
    pub(crate) lba: u32,
    pub(crate) blocks: u32,
    /// Its number, which the bytes that it writes tell.
    pub(crate) writer: u32,
}

/// Byte `at` of the block that this writer wrote as the block `k` of its data; writer 0 is the disk as it is first, whose block k
/// counts up from k.
pub(crate) fn byte_of(writer: u32, k: u32, at: u32) -> u8 {
    let from = writer.wrapping_mul(37).wrapping_add(k);
    let step = writer.wrapping_mul(2).wrapping_add(1);
    (from.wrapping_add(at.wrapping_mul(step)) % 256) as u8
}

/// Puts these bytes behind those that are there, the lowest first.
pub(crate) fn push_number(bytes: &mut Vec<u8>, number: u32) -> Result<(), AllocError> {
    bytes.extend_from_slice(&number.to_le_bytes())
}

impl Command {
    /// How many bytes it reads or writes.
    pub(crate) fn length(&self) -> u32 {
        self.blocks.saturating_mul(BLOCK)
    }

    /// Its command block (5.1).
    fn push_block(&self, bytes: &mut Vec<u8>) -> Result<(), AllocError> {
        bytes.extend_from_slice(b"USBC")?;
        push_number(bytes, self.tag)?;
        push_number(bytes, self.length())?;
        let kind: &[u8] = if self.reads {
            &[128, 0, 10, 40, 0]
        } else {
            &[0, 0, 10, 42, 0]
        };
        bytes.extend_from_slice(kind)?;
        bytes.extend_from_slice(&self.lba.to_be_bytes())?;
        bytes.extend_from_slice(&[0, 0, (self.blocks % 256) as u8])?;
        bytes.extend_from_slice(&[0; 7])
    }

    /// Puts its command block behind the bytes that are there, and the data of a write.
    pub(crate) fn push_bytes(&self, bytes: &mut Vec<u8>) -> Result<(), AllocError> {
        self.push_block(bytes)?;
        if !self.reads {
            for at in 0..self.length() {
                bytes.push(byte_of(self.writer, at / BLOCK, at % BLOCK))?;
            }
        }
        Ok(())
    }

    /// How many bytes these are.
    pub(crate) fn size(&self) -> usize {
        if self.reads {
            31
        } else {
            31 + self.length() as usize
        }
    }

    /// How many bytes the replies to it have.
    pub(crate) fn reply_length(&self) -> u32 {
        if self.reads {
            self.length().saturating_add(13)
        } else {
            13
        }
    }
}
