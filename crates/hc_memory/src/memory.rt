ghost use Rattle.std.specs.Prelude.{◌≡◌, ℕ, ◌+◌, ◌*◌, ◌%◌, ◌≤◌, length, Some, None, false, IfSome, if◌then◌else◌};
ghost use Rattle.word_mem.specs.Memory.{Mem, word_at, reaches, with_word, refused};
ghost use Rattle.word_mem.specs.Access.{IsByController};
ghost use Rattle.word_mem.specs.Views.{words_at, with_words};

use word_mem::WordMem;

/// Memory as the controller reaches it: the words of Lent blocks, by their byte addresses.
pub trait HcMemory {
    ghost mem: { Self → Mem };

    /// The controller's read of the word at the byte address `at`, a multiple of 4. None: the word is in no Lent block, or past the last
    /// word; then one more refusal is counted, and nothing else changes.
    fn hc_read(&mut self, at: u32) -> Option<u32>
        requires { at % 4 ≡ 0 }
        ensures word { result ≡ (if reaches (mem self.old) at then Some (word_at (mem self.old) at) else None) }
        ensures memory { mem self.new ≡ (if reaches (mem self.old) at then mem self.old else refused (mem self.old)) }
        ensures found { IfSome result (λ w. w ≡ word_at (mem self.old) at) }
        ensures same { IfSome result (λ _. mem self.new ≡ mem self.old) }
        ensures only_lent { IsByController (mem self.old) (mem self.new) };

    /// The controller's write of `v` to the word at the byte address `at`, a multiple of 4. False: the word is in no Lent block, or past
    /// the last word; then one more refusal is counted, and nothing else changes.
    fn hc_write(&mut self, at: u32, v: u32) -> bool
        requires { at % 4 ≡ 0 }
        ensures written { result ≡ reaches (mem self.old) at }
        ensures memory { mem self.new ≡ (if reaches (mem self.old) at then with_word (mem self.old) at v else refused (mem self.old)) }
        ensures only_lent { IsByController (mem self.old) (mem self.new) };

    /// The controller's read of the words in a row from the byte address `at` on, a multiple of 4, into all of `into`; they lie in one
    /// block. False: that block isn't Lent, or lies past the last; then one more refusal is counted, and nothing else changes.
    fn hc_read_words(&mut self, at: u32, into: &mut [u32]) -> bool
        requires aligned { at % 4 ≡ 0 }
        requires one_block { at % 32 + 4 * length into.old ≤ 32 }
        ensures read { result ≡ reaches (mem self.old) at }
        ensures words { into.new ≡ (if reaches (mem self.old) at then words_at (mem self.old) at (length into.old) else into.old) }
        ensures memory { mem self.new ≡ (if reaches (mem self.old) at then mem self.old else refused (mem self.old)) }
        ensures only_lent { IsByController (mem self.old) (mem self.new) };

    /// The controller's write of words in a row from the byte address `at` on, a multiple of 4; they lie in one block. False: that block
    /// isn't Lent, or lies past the last; then one more refusal is counted, and nothing else changes.
    fn hc_write_words(&mut self, at: u32, words: &[u32]) -> bool
        requires aligned { at % 4 ≡ 0 }
        requires one_block { at % 32 + 4 * length words.now ≤ 32 }
        ensures written { result ≡ reaches (mem self.old) at }
        ensures memory { mem self.new ≡
            (if reaches (mem self.old) at then with_words (mem self.old) at words.now else refused (mem self.old)) }
        ensures only_lent { IsByController (mem self.old) (mem self.new) };

    /// The last 32 bytes that an address can name, and what lies past them, are in no Lent block.
    fn ends(&self)
        ensures { (at : ℕ) → 4294967264 ≤ at → reaches (mem self.now) at ≡ false };
}

impl HcMemory for WordMem {
    ghost mem = { λ m. m };

    fn hc_read(&mut self, at: u32) -> Option<u32> {
        WordMem::hc_read(self, at)
    }

    fn hc_write(&mut self, at: u32, v: u32) -> bool {
        WordMem::hc_write(self, at, v)
    }

    fn hc_read_words(&mut self, at: u32, into: &mut [u32]) -> bool {
        WordMem::hc_read_words(self, at, into)
    }

    fn hc_write_words(&mut self, at: u32, words: &[u32]) -> bool {
        WordMem::hc_write_words(self, at, words)
    }

    fn ends(&self) {
        // Memory has at most 262,144 words.
        let _words = self.words();
    }
}
