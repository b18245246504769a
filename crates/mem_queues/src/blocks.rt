ghost use Rattle.std.specs.Prelude.{◌≡◌, ◌+◌, ◌%◌, if◌then◌else◌, Some, None, true, length};
ghost use Rattle.word_mem.specs.Memory.{reaches, refused};
ghost use Rattle.word_mem.specs.Access.{IsByController};
ghost use Rattle.word_mem.specs.Views.{words_at, with_words};
ghost use Rattle.mem_queues.specs.Structures.{reaches_queue_head, queue_head_was_read, overlay_written};

use hc_memory::HcMemory;

/// The block after the Lent block at `at`.
#[tactic(auto, using(hc_memory::proofs::Ends::below_end))]
fn block_after<M: HcMemory>(mem: &M, at: u32) -> u32
    requires aligned { at % 32 ≡ 0 }
    requires lent { reaches (M.mem mem.now) at ≡ true }
    ensures after { result ≡ at + 32 }
    ensures aligned { result % 32 ≡ 0 }
{
    mem.ends();
    at + 32
}

/// The controller reads the eight words of the block at `at`. None: the block isn't Lent, and one more refusal is counted.
pub(crate) fn read_eight<M: HcMemory>(mem: &mut M, at: u32) -> Option<[u32; 8]>
    requires { at % 32 ≡ 0 }
    ensures words { result ≡ (if reaches (M.mem mem.old) at then Some (words_at (M.mem mem.old) at 8) else None) }
    ensures memory { M.mem mem.new ≡ (if reaches (M.mem mem.old) at then M.mem mem.old else refused (M.mem mem.old)) }
    ensures only_lent { IsByController (M.mem mem.old) (M.mem mem.new) }
{
    let mut words = [0; 8];
    if mem.hc_read_words(at, &mut words) {
        return Some(words);
    }
    None
}

/// The controller reads the first four words of the block at `at`. None: the block isn't Lent, and one more refusal is counted.
fn read_four<M: HcMemory>(mem: &mut M, at: u32) -> Option<[u32; 4]>
    requires { at % 32 ≡ 0 }
    ensures words { result ≡ (if reaches (M.mem mem.old) at then Some (words_at (M.mem mem.old) at 4) else None) }
    ensures memory { M.mem mem.new ≡ (if reaches (M.mem mem.old) at then M.mem mem.old else refused (M.mem mem.old)) }
    ensures only_lent { IsByController (M.mem mem.old) (M.mem mem.new) }
{
    let mut words = [0; 4];
    if mem.hc_read_words(at, &mut words) {
        return Some(words);
    }
    None
}

/// The controller reads the twelve words from the block at `at` on, which lie in two blocks. None: one of these isn't Lent, and one more
/// refusal is counted.
#[tactic(auto, using(crate::proofs::OneBlock::twelve_words))]
pub(crate) fn read_twelve<M: HcMemory>(mem: &mut M, at: u32) -> Option<[u32; 12]>
    requires { at % 32 ≡ 0 }
    ensures words { result ≡ (if reaches_queue_head (M.mem mem.old) at then Some (words_at (M.mem mem.old) at 12) else None) }
    ensures memory { M.mem mem.new ≡ queue_head_was_read (M.mem mem.old) at }
    ensures only_lent { IsByController (M.mem mem.old) (M.mem mem.new) }
{
    let [w0, w1, w2, w3, w4, w5, w6, w7] = read_eight(mem, at)?;
    let second = block_after(mem, at);
    let [w8, w9, w10, w11] = read_four(mem, second)?;
    Some([w0, w1, w2, w3, w4, w5, w6, w7, w8, w9, w10, w11])
}

/// The controller writes words 3 to 7 of the block at `at`. False: the block isn't Lent, and one more refusal is counted.
#[tactic(auto, using(crate::proofs::OneBlock::fourth_reached))]
fn write_five<M: HcMemory>(mem: &mut M, at: u32, words: &[u32]) -> bool
    requires aligned { at % 32 ≡ 0 }
    requires five { length words.now ≡ 5 }
    ensures written { result ≡ reaches (M.mem mem.old) at }
    ensures memory { M.mem mem.new ≡
        (if reaches (M.mem mem.old) at then with_words (M.mem mem.old) (at + 12) words.now else refused (M.mem mem.old)) }
    ensures only_lent { IsByController (M.mem mem.old) (M.mem mem.new) }
{
    mem.hc_write_words(at + 12, words)
}

/// The controller writes the first four words of the block at `at`. False: the block isn't Lent, and one more refusal is counted.
fn write_four<M: HcMemory>(mem: &mut M, at: u32, words: &[u32]) -> bool
    requires aligned { at % 32 ≡ 0 }
    requires four { length words.now ≡ 4 }
    ensures written { result ≡ reaches (M.mem mem.old) at }
    ensures memory { M.mem mem.new ≡
        (if reaches (M.mem mem.old) at then with_words (M.mem mem.old) at words.now else refused (M.mem mem.old)) }
    ensures only_lent { IsByController (M.mem mem.old) (M.mem mem.new) }
{
    mem.hc_write_words(at, words)
}

/// The controller writes nine words: five as words 3 to 7 of the block at `at`, and four in the block after it. False: one of the two
/// blocks isn't Lent; then the words before it are written, and one more refusal is counted.
#[inline(always)]
pub(crate) fn write_nine<M: HcMemory>(mem: &mut M, at: u32, words: &[u32]) -> bool
    requires aligned { at % 32 ≡ 0 }
    requires nine { length words.now ≡ 9 }
    ensures written { result ≡ reaches_queue_head (M.mem mem.old) at }
    ensures memory { M.mem mem.new ≡ overlay_written (M.mem mem.old) at words.now }
    ensures only_lent { IsByController (M.mem mem.old) (M.mem mem.new) }
{
    if !write_five(mem, at, &words[..5]) {
        return false;
    }
    let second = block_after(mem, at);
    write_four(mem, second, &words[5..])
}
