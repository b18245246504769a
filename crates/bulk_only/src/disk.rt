ghost use Rattle.std.specs.Prelude.{◌≡◌, ◌<◌, length, option_copied, slice_get, IfOk};
ghost use Rattle.bulk_only.specs.Contents.{disk_reset, disk_sent, disk_took, opening_disk, shown_block};

use crate::front::keep_from;
use crate::joined::Joined;
use crate::stored::Stored;
use std::alloc::Global;
use std::marker::Model;
use usb_base::Memory;

/// The bytes of the longest command: a command block and the data of 40 blocks.
const LONGEST: usize = 31 + 40 * 512;

/// A disk of blocks of 512 bytes that obeys the commands of the bulk-only transport (USB Mass Storage Class, Bulk-Only
/// Transport 1.0). All its memory is taken when it is built.
#[derive(Debug, Drop)]
pub struct Disk {
    stored: Stored,
    /// The bytes of a command that isn't whole.
    begun: Vec<u8>,
}

impl Model for Disk {
    ghost use Rattle.std.specs.Prelude.{◌≤◌, vec_capacity};
    ghost use Rattle.bulk_only.specs.Contents.{DiskContent};

    ghost Value = { DiskContent };

    ghost view = { λ d. record { stored = d.stored; begun = d.begun.items } };

    ghost invariant = { λ d. 20511 ≤ vec_capacity d.begun };
}

impl Disk {
    /// A disk of this many blocks, with room for `replies` bytes of replies; byte j of block i is (i + j) mod 256. `Err` is want of
    /// memory.
    pub fn build(alloc: Global, blocks: u32, replies: u32) -> Result<Disk, Memory>
        ensures { IfOk result (λ d. d ≡ opening_disk blocks replies) }
    {
        let stored = Stored::build(alloc, blocks, replies)?;
        let begun = Vec::with_capacity(alloc, LONGEST)?;
        Ok(Disk { stored, begun })
    }

    /// Takes the next bytes from the host (5.3.1 and 5.3.2), cut anywhere, and obeys each command that they make whole. They are taken
    /// exactly where they could go on as valid commands and the replies that wait and those to these commands fit the room; else
    /// nothing changes.
    #[tactic(auto, using(crate::proofs::Parsing::rest_is_short))]
    pub fn take(&mut self, bytes: &[u8])
        ensures { self.new ≡ disk_took bytes.now self.old }
    {
        let all = Joined::of(self.begun.as_slice(), bytes);
        if !self.stored.can_obey(&all) {
            return;
        }
        let at = self.stored.obey_all(&all);
        keep_from(&mut self.begun, at, bytes);
    }

    /// The bytes of block `lba`, from 0; `None` exactly at or past the number of blocks.
    pub fn contents(&self, lba: u32) -> Option<&[u8]>
        ensures { option_copied result ≡ shown_block self.now.stored.bytes lba }
    {
        self.stored.block(lba)
    }

    /// The next packet for the host, a block of data or a status block (5.3.2 and 5.3.3); `None` exactly where none waits.
    pub fn packet(&self) -> Option<&[u8]>
        ensures { option_copied result ≡ slice_get self.now.stored.replies.packets 0 }
    {
        self.stored.replies().first()
    }

    /// The host has the next packet, which doesn't wait any longer.
    pub fn sent(&mut self)
        requires { 0 < length self.old.stored.replies.packets }
        ensures { self.new ≡ disk_sent self.old }
    {
        self.stored.pop();
    }

    /// Forgets a command that isn't whole, and the replies that wait (3.1). The blocks stay.
    pub fn reset(&mut self)
        ensures { self.new ≡ disk_reset self.old }
    {
        self.begun.clear();
        self.stored.clear();
    }
}
