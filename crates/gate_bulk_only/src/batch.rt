use crate::command::Command;
use crate::draws::Draws;
use std::alloc::{AllocError, Global};

/// Commands that are on their way to the disk, one behind the other.
#[derive(Drop)]
pub(crate) struct Batch {
    commands: Vec<Command>,
    /// How many of them the disk obeyed.
    obeyed: usize,
    /// Where the first that it didn't obey begins.
    begun: usize,
    /// The bytes of all.
    bytes: Vec<u8>,
    /// How many of them the disk has.
    taken: usize,
}

impl Batch {
    /// No commands.
    pub(crate) fn empty(alloc: Global) -> Batch {
        Batch {
            commands: Vec::new(alloc),
            obeyed: 0,
            begun: 0,
            bytes: Vec::new(alloc),
            taken: 0,
        }
    }

    /// Whether the disk has all bytes.
    pub(crate) fn is_through(&self) -> bool {
        self.taken >= self.bytes.len()
    }

    /// Forgets the commands.
    pub(crate) fn clear(&mut self) {
        self.commands.clear();
        self.bytes.clear();
        self.obeyed = 0;
        self.begun = 0;
        self.taken = 0;
    }

    /// One command more.
    pub(crate) fn push(&mut self, command: Command) -> Result<(), AllocError> {
        command.push_bytes(&mut self.bytes)?;
        match self.commands.push(command) {
            Ok(()) => Ok(()),
            Err(_) => Err(AllocError),
        }
    }

    /// Where a piece ends that begins at the first byte that the disk hasn't: short ones, and often all.
    pub(crate) fn cut(&self, draws: &mut Draws) -> usize {
        let left = self.bytes.len().saturating_sub(self.taken);
        let drawn = if draws.below(3) == 0 {
            draws.below(40)
        } else {
            draws.draw()
        };
        self.taken.saturating_add(left.min(drawn as usize))
    }

    /// The piece that ends there.
    pub(crate) fn piece(&self, end: usize) -> &[u8] {
        match self.bytes.as_slice().get(self.taken..end) {
            Some(piece) => piece,
            None => &[],
        }
    }

    /// How many bytes the replies have to the commands that this piece makes whole.
    pub(crate) fn replies(&self, end: usize) -> u32 {
        let mut at = self.begun;
        let mut bytes = 0u32;
        for command in self.commands.as_slice().iter().skip(self.obeyed) {
            at = at.saturating_add(command.size());
            if at <= end {
                bytes = bytes.saturating_add(command.reply_length());
            }
        }
        bytes
    }

    /// The disk has the bytes up to this one.
    pub(crate) fn take(&mut self, end: usize) {
        self.taken = end;
    }

    /// The first command that is whole and wasn't obeyed; it is now.
    pub(crate) fn next_whole(&mut self) -> Option<Command> {
        let command = self.commands.as_slice().get(self.obeyed).copied()?;
        let end = self.begun.saturating_add(command.size());
        if end > self.taken {
            return None;
        }
        self.begun = end;
        self.obeyed = self.obeyed.saturating_add(1);
        Some(command)
    }

    /// Whether the next byte is one of the signature of a command block.
    pub(crate) fn is_in_signature(&self) -> bool {
        self.taken.saturating_sub(self.begun) < 4
    }

    /// The command that isn't whole begins anew.
    pub(crate) fn go_back(&mut self) {
        self.taken = self.begun;
    }

    /// Whether the replies to a command pass this room.
    pub(crate) fn never_fits(&self, room: u32) -> bool {
        self.commands
            .as_slice()
            .iter()
            .any(|command| room < command.reply_length())
    }
}
