use crate::host::Host;
use std::alloc::{AllocError, Global};
use word_mem::{BlockState, WordMem};

/// What registers, memory and report show at a moment.
#[derive(Drop)]
pub(crate) struct Shot {
    pub(crate) command: u32,
    pub(crate) status: u32,
    /// How many lines the report has.
    pub(crate) lines: usize,
    pub(crate) words: Vec<u32>,
    pub(crate) states: Vec<BlockState>,
}

/// How many blocks are Free, Kept and Lent.
#[derive(Clone, Copy, PartialEq, Eq)]
pub(crate) struct Blocks {
    pub(crate) free: usize,
    pub(crate) kept: usize,
    pub(crate) lent: usize,
}

fn words_of(alloc: Global, mem: &WordMem) -> Result<Vec<u32>, AllocError> {
    let count = mem.words();
    let mut words = Vec::with_capacity(alloc, count as usize)?;
    for i in 0..count {
        words.push(mem.word(4 * i))?;
    }
    Ok(words)
}

fn states_of(alloc: Global, mem: &WordMem) -> Result<Vec<BlockState>, AllocError> {
    let count = mem.words() / 8;
    let mut states = Vec::with_capacity(alloc, count as usize)?;
    for block in 0..count {
        states.push(mem.state(block))?;
    }
    Ok(states)
}

impl Shot {
    /// How it is now.
    pub(crate) fn of(alloc: Global, host: &Host) -> Result<Shot, AllocError> {
        let words = words_of(alloc, host.mem())?;
        let states = states_of(alloc, host.mem())?;
        Ok(Shot {
            command: host.regs().driver_read(0x00).unwrap_or(0),
            status: host.regs().driver_read(0x04).unwrap_or(0),
            lines: host.driver().reports().len(),
            words,
            states,
        })
    }

    /// How many blocks have this state.
    fn count(&self, state: BlockState) -> usize {
        self.states.iter().filter(|other| **other == state).count()
    }

    pub(crate) fn blocks(&self) -> Blocks {
        Blocks {
            free: self.count(BlockState::Free),
            kept: self.count(BlockState::Kept),
            lent: self.count(BlockState::Lent),
        }
    }

    /// Whether all words and all states are the same.
    pub(crate) fn is_same(&self, other: &Shot) -> bool {
        self.words.as_slice() == other.words.as_slice()
            && self.states.as_slice() == other.states.as_slice()
    }

    /// Whether the word of this number lies in a Free block.
    pub(crate) fn is_free(&self, word: usize) -> bool {
        match self.states.get(word / 8) {
            Some(state) => *state == BlockState::Free,
            None => true,
        }
    }
}
