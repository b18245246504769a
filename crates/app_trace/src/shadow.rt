//! The words as they stood before an event of the driver, to find the word that it stores.
ghost use Rattle.std.specs.Prelude.{◌≡◌, IfSome};
ghost use Rattle.word_mem.specs.Memory.{word_at};

use std::alloc::Global;
use usb_base::Memory;
use word_mem::WordMem;

/// A copy of the words of memory.
#[derive(Drop)]
pub struct Shadow {
    words: Vec<u32>,
}

impl Shadow {
    /// A copy of zeros.
    pub fn build(alloc: Global, words: u32) -> Result<Shadow, Memory> {
        Ok(Shadow {
            words: vec![in alloc; 0u32; words as usize]?,
        })
    }

    /// Copies the words.
    pub fn copy(&mut self, mem: &WordMem) {
        for word in 0..mem.words() {
            if let Some(copied) = self.words.get_mut(word as usize) {
                *copied = mem.word(4 * word);
            }
        }
    }

    /// Whether a word is as it was copied.
    fn has(&self, word: u32, value: u32) -> bool {
        match self.words.get(word as usize) {
            Some(copied) => *copied == value,
            None => false,
        }
    }

    /// The first word that isn't as it was copied: its byte address, and what it is.
    pub fn changed(&self, mem: &WordMem) -> Option<(u32, u32)>
        ensures { IfSome result (λ s. s.1 ≡ word_at mem.now s.0) }
    {
        for word in 0..mem.words() {
            let value = mem.word(4 * word);
            if !self.has(word, value) {
                return Some((4 * word, value));
            }
        }
        None
    }
}
