use crate::batch::Batch;
use crate::counts::{Counts, count};
use crate::draws::Draws;
use crate::model::{Model, block_bytes, packet_bytes};
use bulk_only::Disk;
use std::alloc::{AllocError, Global};
use usb_base::Memory;

/// The disk, the model, and the commands that are on their way.
#[derive(Drop)]
pub(crate) struct Host {
    alloc: Global,
    disk: Disk,
    model: Model,
    blocks: u32,
    room: u32,
    /// How many commands were drawn.
    number: u32,
    batch: Batch,
}

/// The host has the first packet.
fn drop_first(disk: &mut Disk) {
    if disk.packet().is_some() {
        disk.sent();
    }
}

impl Host {
    /// A disk of so many blocks, with room for so many bytes of replies.
    pub(crate) fn build(alloc: Global, blocks: u32, room: u32) -> Result<Host, Memory> {
        Ok(Host {
            alloc,
            disk: Disk::build(alloc, blocks, room)?,
            model: Model::build(alloc, blocks)?,
            blocks,
            room,
            number: 0,
            batch: Batch::empty(alloc),
        })
    }

    /// Draws the next commands, one to three, where the last are through.
    fn next(&mut self, draws: &mut Draws) -> Result<(), AllocError> {
        if !self.batch.is_through() {
            return Ok(());
        }
        self.batch.clear();
        for _command in 0..=draws.below(3) {
            self.number = self.number.saturating_add(1);
            self.batch.push(draws.command(self.number, self.blocks))?;
        }
        Ok(())
    }

    /// The disk took nothing. Where the replies to a command never fit, the host gives the commands up.
    fn refused(&mut self) {
        if self.batch.never_fits(self.room) {
            self.reset();
            self.batch.clear();
        }
    }

    /// The model obeys the commands that are whole.
    fn obey(&mut self, counts: &mut Counts) -> Result<(), AllocError> {
        for _command in 0..3u32 {
            if let Some(command) = self.batch.next_whole() {
                count(&mut counts.obeyed, true);
                count(&mut counts.failed, !self.model.has(&command));
                self.model.obey(&command)?;
            }
        }
        Ok(())
    }

    /// Hands a piece of the commands: the disk takes it where the replies to those that it makes whole fit.
    fn piece(&mut self, draws: &mut Draws, counts: &mut Counts) -> Result<(), AllocError> {
        self.next(draws)?;
        let end = self.batch.cut(draws);
        self.disk.take(self.batch.piece(end));
        let waiting = self.model.waiting_bytes();
        if self.room < waiting.saturating_add(self.batch.replies(end)) {
            count(&mut counts.refused, true);
            self.refused();
            return Ok(());
        }
        self.batch.take(end);
        self.obey(counts)
    }

    /// Hands a wrong byte where the next is one of the signature: the disk takes nothing.
    fn wrong(&mut self, draws: &mut Draws, counts: &mut Counts) -> Result<(), AllocError> {
        self.next(draws)?;
        if self.batch.is_in_signature() {
            let wrong = [128 | (draws.draw() % 128) as u8];
            self.disk.take(&wrong);
            count(&mut counts.refused, true);
        }
        Ok(())
    }

    /// Compares the packet that is sent next, and sends it.
    fn send(&mut self, counts: &mut Counts) -> Result<(), AllocError> {
        let Some(packet) = self.model.first() else {
            count(&mut counts.differ, self.disk.packet().is_some());
            return Ok(());
        };
        let wanted = packet_bytes(self.alloc, packet)?;
        count(
            &mut counts.differ,
            self.disk.packet() != Some(wanted.as_slice()),
        );
        count(&mut counts.sent, true);
        drop_first(&mut self.disk);
        self.model.sent();
        Ok(())
    }

    /// Compares a block, also one that isn't there.
    fn look(&mut self, draws: &mut Draws, counts: &mut Counts) -> Result<(), AllocError> {
        let lba = draws.below(self.blocks.saturating_add(2));
        let Some(block) = self.model.block(lba) else {
            count(&mut counts.differ, self.disk.contents(lba).is_some());
            return Ok(());
        };
        let wanted = block_bytes(self.alloc, block)?;
        count(
            &mut counts.differ,
            self.disk.contents(lba) != Some(wanted.as_slice()),
        );
        Ok(())
    }

    /// A reset: the command that isn't whole begins anew, and no reply waits.
    fn reset(&mut self) {
        self.disk.reset();
        self.model.reset();
        self.batch.go_back();
    }

    /// Sends some packets.
    fn send_some(&mut self, draws: &mut Draws, counts: &mut Counts) -> Result<(), AllocError> {
        for _packet in 0..draws.below(8) {
            self.send(counts)?;
        }
        Ok(())
    }

    /// A drawn call.
    pub(crate) fn step(
        &mut self,
        draws: &mut Draws,
        counts: &mut Counts,
    ) -> Result<(), AllocError> {
        match draws.below(16) {
            0 => self.wrong(draws, counts),
            1 => {
                if draws.below(4) == 0 {
                    self.reset();
                }
                Ok(())
            }
            2..=5 => self.send_some(draws, counts),
            6..=8 => self.look(draws, counts),
            _ => self.piece(draws, counts),
        }
    }
}
