ghost use Rattle.std.specs.Prelude.{◌≡◌, ◌+◌, ◌*◌, ◌≤◌, ◌<◌, ◌^◌, ◌++◌, ◌&&◌, [], length, drop, option_copied, IfOk, IsTrue};
ghost use Rattle.bulk_only.specs.Blocks.{block_size, data_length};
ghost use Rattle.bulk_only.specs.Commands.{commands_of, rest_of, could_go_on, follows};
ghost use Rattle.bulk_only.specs.Contents.{blocks_from, data_packets, fits, obeyed, obeyed_one, opening, passes, reply_length, sent_by, shown_block, status_packet, stores, with_packets, zero_blocks};
ghost use Rattle.bulk_only.specs.Replies.{all_sent, bytes_in, with_packet, without_first};
ghost use Rattle.bulk_only.specs.Status.{status_bytes};

use crate::blocks::Blocks;
use crate::command_block::{CommandBlock, Operation};
use crate::joined::Joined;
use crate::replies::Replies;
use crate::status_block::{CommandStatus, StatusBlock};
use std::alloc::{AllocError, Global};
use std::marker::Model;

/// A block of zero bytes, as a failing read sends them.
const ZEROS: [u8; 512] = [0; 512];

/// The blocks of a disk, and the replies that wait.
#[derive(Debug, Drop)]
pub(crate) struct Stored {
    blocks: Blocks,
    replies: Replies,
}

impl Model for Stored {
    ghost use Rattle.bulk_only.specs.Contents.{Stored as StoredContent};

    ghost Value = { StoredContent };

    ghost view = { λ s. record { bytes = s.blocks; replies = s.replies } };
}

/// How many bytes the disk says to a command.
fn reply_length(block: &CommandBlock) -> usize
    ensures { result ≡ reply_length block.now }
{
    let sent = match block.operation {
        Operation::Read => block.data_length() as usize,
        Operation::Write => 0,
    };
    sent + 13
}

/// The status block that ends a command (Bulk-Only Transport 1.0, 5.2).
fn status_of(block: &CommandBlock, passed: bool) -> StatusBlock
    ensures { status_bytes result ≡ status_packet passed block.now }
{
    if passed {
        StatusBlock {
            tag: block.tag,
            residue: 0,
            status: CommandStatus::Passed,
        }
    } else {
        StatusBlock {
            tag: block.tag,
            residue: block.data_length(),
            status: CommandStatus::Failed,
        }
    }
}

/// Sends the blocks of a command, which are there.
#[tactic(auto, using(crate::proofs::Packets::one_block_more, crate::proofs::Packets::bytes_in_one))]
fn send_blocks(replies: &mut Replies, blocks: &Blocks, block: &CommandBlock)
    requires within { block_size * (block.now.lba + block.now.blocks) ≤ length blocks.now }
    requires room { bytes_in replies.old.packets + block_size * block.now.blocks ≤ replies.old.room }
    ensures { replies.new ≡ with_packets (blocks_from blocks.now block.now.lba block.now.blocks) replies.old }
{
    let lba = block.lba as usize;
    let count = block.blocks;
    for k in 0..count {
        replies.push(blocks.block(lba + k as usize));
    }
}

/// Sends so many blocks of zero bytes.
#[tactic(auto, using(crate::proofs::Packets::one_zero_more, crate::proofs::Packets::bytes_in_one))]
fn send_zeros(replies: &mut Replies, blocks: u16)
    requires { bytes_in replies.old.packets + block_size * blocks ≤ replies.old.room }
    ensures { replies.new ≡ with_packets (zero_blocks blocks) replies.old }
{
    for _k in 0..blocks {
        replies.push(&ZEROS);
    }
}

impl Stored {
    /// A disk of this many blocks as they are first, with room for so many bytes of replies.
    pub(crate) fn build(alloc: Global, blocks: u32, room: u32) -> Result<Stored, AllocError>
        ensures { IfOk result (λ s. s ≡ record { bytes = opening blocks; replies = record { packets = []; room = room } }) }
    {
        let blocks = Blocks::build(alloc, blocks)?;
        let replies = Replies::build(alloc, room)?;
        Ok(Stored { blocks, replies })
    }

    /// The block of this number; `None` exactly at or past the number of blocks.
    pub(crate) fn block(&self, lba: u32) -> Option<&[u8]>
        ensures { option_copied result ≡ shown_block self.now.bytes lba }
    {
        if self.blocks.has(lba, 1) {
            Some(self.blocks.block(lba as usize))
        } else {
            None
        }
    }

    /// The replies that wait.
    pub(crate) fn replies(&self) -> &Replies
        ensures { result.now ≡ self.now.replies }
    {
        &self.replies
    }

    /// The first reply waits no longer.
    pub(crate) fn pop(&mut self)
        ensures { self.new ≡ record self.old { replies = without_first self.old.replies } }
    {
        self.replies.pop();
    }

    /// No reply waits any longer.
    pub(crate) fn clear(&mut self)
        ensures { self.new ≡ record self.old { replies = all_sent self.old.replies } }
    {
        self.replies.clear();
    }

    /// Whether the blocks of a command are there.
    fn passes(&self, block: &CommandBlock) -> bool
        ensures { result ≡ passes self.now.bytes block.now }
    {
        self.blocks.has(block.lba, block.blocks)
    }

    /// Sends the status of a command.
    fn send_status(&mut self, block: &CommandBlock, passed: bool)
        requires { bytes_in self.old.replies.packets + 13 ≤ self.old.replies.room }
        ensures { self.new ≡ record self.old { replies = with_packet (status_packet passed block.now) self.old.replies } }
    {
        self.replies.push(&status_of(block, passed).bytes());
    }

    /// Sends the data of a read.
    fn send_data(&mut self, block: &CommandBlock, passed: bool)
        requires passed { passed ≡ passes self.old.bytes block.now }
        requires room { bytes_in self.old.replies.packets + sent_by block.now.operation (data_length block.now) ≤ self.old.replies.room }
        ensures { self.new ≡ record self.old {
          replies = with_packets (data_packets block.now.operation passed self.old.bytes block.now) self.old.replies;
        } }
    {
        match (block.operation, passed) {
            (Operation::Write, _) => {}
            (Operation::Read, true) => send_blocks(&mut self.replies, &self.blocks, block),
            (Operation::Read, false) => send_zeros(&mut self.replies, block.blocks),
        }
    }

    /// Stores the data of a write.
    fn store(&mut self, block: &CommandBlock, passed: bool, front: &[u8], back: &[u8])
        requires passed { passed ≡ passes self.old.bytes block.now }
        requires data { length front.now + length back.now ≡ follows block.now }
        ensures { self.new ≡ record self.old {
          bytes = stores block.now.operation passed (block_size * block.now.lba) (front.now ++ back.now) self.old.bytes;
        } }
    {
        match (block.operation, passed) {
            (Operation::Read, _) | (Operation::Write, false) => {}
            (Operation::Write, true) => self.blocks.write(block.lba, front, back),
        }
    }

    /// Obeys a whole command, whose data are `front` and behind it `back`.
    fn obey(&mut self, block: &CommandBlock, front: &[u8], back: &[u8])
        requires data { length front.now + length back.now ≡ follows block.now }
        requires room { bytes_in self.old.replies.packets + reply_length block.now ≤ self.old.replies.room }
        ensures { self.new ≡ obeyed_one (record { block = block.now; bytes = front.now ++ back.now }) self.old }
    {
        let passed = self.passes(block);
        self.send_data(block, passed);
        self.store(block, passed, front, back);
        self.send_status(block, passed);
    }

    /// Whether these bytes could go on as commands, and the replies to those that are whole fit.
    pub(crate) fn can_obey(&self, bytes: &Joined) -> bool
        ensures { result ≡ (could_go_on bytes.now && fits (commands_of bytes.now) self.now.replies) }
    {
        let mut at = 0;
        let mut left = self.replies.left();
        while let Some(block) = bytes.whole_block(at) {
            let length = reply_length(&block);
            if left < length {
                return false;
            }
            left -= length;
            at += block.size();
        }
        bytes.is_front(at)
    }

    /// Obeys each whole command of these bytes, in their order; answers the place of the first byte behind them.
    pub(crate) fn obey_all(&mut self, bytes: &Joined) -> usize
        requires { IsTrue (fits (commands_of bytes.now) self.old.replies) }
        ensures after { self.new ≡ obeyed (commands_of bytes.now) self.old }
        ensures rest { drop result bytes.now ≡ rest_of bytes.now }
        ensures within { result ≤ length bytes.now }
    {
        let mut at = 0;
        while let Some(block) = bytes.whole_block(at) {
            let end = at + block.size();
            let (front, back) = bytes.part(at + 31, end);
            self.obey(&block, front, back);
            at = end;
        }
        at
    }
}
