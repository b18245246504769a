ghost use Rattle.std.specs.Prelude.{◌≡◌, ◌+◌, ◌*◌, ◌%◌, ◌<◌, if◌then◌else◌, Some, None, true, length};
ghost use Rattle.word_mem.specs.Memory.{reaches, refused};
ghost use Rattle.word_mem.specs.Access.{IsByController};
ghost use Rattle.word_mem.specs.Views.{words_at, with_words};
ghost use Rattle.mem_descriptors.specs.Descriptors.{reaches_itd, itd_was_read, slot_address};

use hc_memory::HcMemory;

/// The last 32 bytes that an address can name begin here; no word is Lent from here on.
const LARGEST: u32 = 0xffff_ffe0;

/// The block after the Lent block at `at`.
#[tactic(auto, using(hc_memory::proofs::Ends::below_end))]
fn block_after<M: HcMemory>(mem: &M, at: u32) -> u32
    requires aligned { at % 32 ≡ 0 }
    requires lent { reaches (M.mem mem.now) at ≡ true }
    ensures after { result ≡ at + 32 }
    ensures aligned { result % 32 ≡ 0 }
{
    mem.ends();
    at + 32
}

/// The controller reads the eight words of the block at `at`. None: the block isn't Lent, and one more refusal is counted.
fn read_eight<M: HcMemory>(mem: &mut M, at: u32) -> Option<[u32; 8]>
    requires { at % 32 ≡ 0 }
    ensures words { result ≡ (if reaches (M.mem mem.old) at then Some (words_at (M.mem mem.old) at 8) else None) }
    ensures memory { M.mem mem.new ≡ (if reaches (M.mem mem.old) at then M.mem mem.old else refused (M.mem mem.old)) }
    ensures only_lent { IsByController (M.mem mem.old) (M.mem mem.new) }
{
    let mut words = [0; 8];
    if mem.hc_read_words(at, &mut words) {
        return Some(words);
    }
    None
}

/// The controller reads the first seven words of the block at `at`. None: the block isn't Lent, and one more refusal is counted.
pub(crate) fn read_seven<M: HcMemory>(mem: &mut M, at: u32) -> Option<[u32; 7]>
    requires { at % 32 ≡ 0 }
    ensures words { result ≡ (if reaches (M.mem mem.old) at then Some (words_at (M.mem mem.old) at 7) else None) }
    ensures memory { M.mem mem.new ≡ (if reaches (M.mem mem.old) at then M.mem mem.old else refused (M.mem mem.old)) }
    ensures only_lent { IsByController (M.mem mem.old) (M.mem mem.new) }
{
    let mut words = [0; 7];
    if mem.hc_read_words(at, &mut words) {
        return Some(words);
    }
    None
}

/// The controller reads the sixteen words from the block at `at` on, which lie in two blocks. None: one of these isn't Lent, and one more
/// refusal is counted.
#[tactic(auto, using(crate::proofs::TwoBlocks::sixteen_words))]
pub(crate) fn read_sixteen<M: HcMemory>(mem: &mut M, at: u32) -> Option<[u32; 16]>
    requires { at % 32 ≡ 0 }
    ensures words { result ≡ (if reaches_itd (M.mem mem.old) at then Some (words_at (M.mem mem.old) at 16) else None) }
    ensures memory { M.mem mem.new ≡ itd_was_read (M.mem mem.old) at }
    ensures only_lent { IsByController (M.mem mem.old) (M.mem mem.new) }
{
    let [w0, w1, w2, w3, w4, w5, w6, w7] = read_eight(mem, at)?;
    let second = block_after(mem, at);
    let [w8, w9, w10, w11, w12, w13, w14, w15] = read_eight(mem, second)?;
    Some([
        w0, w1, w2, w3, w4, w5, w6, w7, w8, w9, w10, w11, w12, w13, w14, w15,
    ])
}

/// The address of the word of microframe `number` in the iTD at `at`. Where `at` is past what can be Lent that word is too, and
/// `at` stands for it.
#[tactic(auto, using(crate::proofs::TwoBlocks::past_memory))]
pub(crate) fn slot_place<M: HcMemory>(mem: &M, at: u32, number: u8) -> u32
    requires aligned { at % 32 ≡ 0 }
    requires number { number < 8 }
    ensures aligned { result % 4 ≡ 0 }
    ensures reached { reaches (M.mem mem.now) result ≡ reaches (M.mem mem.now) (slot_address at number) }
    ensures place { reaches (M.mem mem.now) result ≡ true → result ≡ slot_address at number }
{
    mem.ends();
    if at < LARGEST {
        return at + 4 + 4 * number as u32;
    }
    at
}

/// The controller writes words 3 to 5 of the block at `at`. False: the block isn't Lent, and one more refusal is counted.
#[tactic(auto, using(crate::proofs::TwoBlocks::fourth_reached))]
pub(crate) fn write_three<M: HcMemory>(mem: &mut M, at: u32, words: &[u32]) -> bool
    requires aligned { at % 32 ≡ 0 }
    requires three { length words.now ≡ 3 }
    ensures written { result ≡ reaches (M.mem mem.old) at }
    ensures memory { M.mem mem.new ≡
        (if reaches (M.mem mem.old) at then with_words (M.mem mem.old) (at + 12) words.now else refused (M.mem mem.old)) }
    ensures only_lent { IsByController (M.mem mem.old) (M.mem mem.new) }
{
    mem.hc_write_words(at + 12, words)
}
