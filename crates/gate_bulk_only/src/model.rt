use crate::command::{BLOCK, Command, byte_of, push_number};
use std::alloc::{AllocError, Global};
use std::collections::VecDeque;

/// Who wrote a block last, and as which block of its data.
#[derive(Clone, Copy)]
pub(crate) struct Written {
    writer: u32,
    k: u32,
}

/// A packet that waits.
#[derive(Clone, Copy)]
pub(crate) enum Packet {
    Data(Written),
    Zeros,
    /// The tag, the residue, and whether the command failed.
    Status(u32, u32, bool),
}

/// A disk as the model has it.
#[derive(Drop)]
pub(crate) struct Model {
    blocks: Vec<Written>,
    waiting: VecDeque<Packet>,
}

fn length_of(packet: &Packet) -> u32 {
    match packet {
        Packet::Data(_) | Packet::Zeros => BLOCK,
        Packet::Status(_, _, _) => 13,
    }
}

/// The bytes of a block.
pub(crate) fn block_bytes(alloc: Global, block: Written) -> Result<Vec<u8>, AllocError> {
    let mut bytes = Vec::new(alloc);
    for at in 0..BLOCK {
        bytes.push(byte_of(block.writer, block.k, at))?;
    }
    Ok(bytes)
}

/// The bytes of a packet; a status block is that of 5.2.
pub(crate) fn packet_bytes(alloc: Global, packet: Packet) -> Result<Vec<u8>, AllocError> {
    match packet {
        Packet::Data(block) => block_bytes(alloc, block),
        Packet::Zeros => vec![in alloc; 0u8; 512],
        Packet::Status(tag, residue, failed) => {
            let mut bytes = Vec::from_slice(alloc, b"USBS")?;
            push_number(&mut bytes, tag)?;
            push_number(&mut bytes, residue)?;
            bytes.push(failed as u8)?;
            Ok(bytes)
        }
    }
}

impl Model {
    /// A disk of so many blocks as they are first.
    pub(crate) fn build(alloc: Global, blocks: u32) -> Result<Model, AllocError> {
        let mut written = Vec::new(alloc);
        for k in 0..blocks {
            written.push(Written { writer: 0, k })?;
        }
        Ok(Model {
            blocks: written,
            waiting: VecDeque::new(alloc),
        })
    }

    /// Whether the blocks of a command are there.
    pub(crate) fn has(&self, command: &Command) -> bool {
        command.lba as u64 + command.blocks as u64 <= self.blocks.len() as u64
    }

    /// The block of this number.
    pub(crate) fn block(&self, lba: u32) -> Option<Written> {
        self.blocks.as_slice().get(lba as usize).copied()
    }

    /// How many bytes wait.
    pub(crate) fn waiting_bytes(&self) -> u32 {
        let mut bytes = 0u32;
        for packet in self.waiting.iter() {
            bytes = bytes.saturating_add(length_of(packet));
        }
        bytes
    }

    fn write(&mut self, command: &Command) {
        for k in 0..command.blocks {
            if let Some(block) = self
                .blocks
                .as_mut_slice()
                .get_mut(command.lba.saturating_add(k) as usize)
            {
                *block = Written {
                    writer: command.writer,
                    k,
                };
            }
        }
    }

    fn read(&mut self, command: &Command) -> Result<(), AllocError> {
        for k in 0..command.blocks {
            let packet = match self.block(command.lba.saturating_add(k)) {
                Some(block) if self.has(command) => Packet::Data(block),
                _ => Packet::Zeros,
            };
            self.wait(packet)?;
        }
        Ok(())
    }

    /// A packet waits behind the others.
    fn wait(&mut self, packet: Packet) -> Result<(), AllocError> {
        match self.waiting.push_back(packet) {
            Ok(()) => Ok(()),
            Err(_) => Err(AllocError),
        }
    }

    /// Obeys a command.
    pub(crate) fn obey(&mut self, command: &Command) -> Result<(), AllocError> {
        let failed = !self.has(command);
        if command.reads {
            self.read(command)?;
        } else if !failed {
            self.write(command);
        }
        let residue = if failed { command.length() } else { 0 };
        self.wait(Packet::Status(command.tag, residue, failed))
    }

    /// The packet that is sent next.
    pub(crate) fn first(&self) -> Option<Packet> {
        self.waiting.front().copied()
    }

    /// It was sent.
    pub(crate) fn sent(&mut self) {
        let _first = self.waiting.pop_front();
    }

    /// A reset forgets what waits.
    pub(crate) fn reset(&mut self) {
        self.waiting.clear();
    }
}
