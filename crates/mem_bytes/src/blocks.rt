ghost use Rattle.std.specs.Prelude.{◌≡◌, ℕ, ◌+◌, ◌*◌, ◌/◌, ◌%◌, ◌<◌, ◌≤◌, length, take, drop, ◌++◌, [], ◌∷◌, slice_index, MatchOption, false};
ghost use Rattle.word_mem.specs.Memory.{reaches, refused};
ghost use Rattle.word_mem.specs.Access.{IsByController};
ghost use Rattle.mem_bytes.specs.Bytes.{ArePages, place, with_bytes, word_of, words_from, bytes_of, bytes_at, AreReached};

use hc_memory::HcMemory;

/// The word of the four bytes from place `i` on.
fn word(bytes: &[u8], i: usize) -> u32
    requires { i + 4 ≤ length bytes.now }
    ensures { result ≡ word_of (slice_index bytes.now i ∷ slice_index bytes.now (i + 1) ∷ slice_index bytes.now (i + 2) ∷ slice_index bytes.now (i + 3) ∷ []) }
{
    u32::from_le_bytes([bytes[i], bytes[i + 1], bytes[i + 2], bytes[i + 3]])
}

/// The words of the first 32 bytes.
#[tactic(auto, unfolding(crate::specs::Bytes::words_from))]
fn eight_words(bytes: &[u8]) -> [u32; 8]
    requires { 32 ≤ length bytes.now }
    ensures { result ≡ words_from bytes.now 0 8 }
{
    [
        word(bytes, 0),
        word(bytes, 4),
        word(bytes, 8),
        word(bytes, 12),
        word(bytes, 16),
        word(bytes, 20),
        word(bytes, 24),
        word(bytes, 28),
    ]
}

/// Stores the first 32 bytes, whose places are a whole block, at `at`. None: the controller may not touch it, and one more refusal is
/// counted.
#[inline(always)]
pub(crate) fn hc_put_block<M: HcMemory>(
    mem: &mut M,
    pages: &[u32],
    k: u32,
    at: u32,
    bytes: &[u8],
) -> Option<usize>
    requires here { at ≡ place pages.now k }
    requires whole { at % 32 ≡ 0 }
    requires long { 32 ≤ length bytes.now }
    ensures moved { MatchOption result (reaches (M.mem mem.old) (place pages.now k) ≡ false)
        (λ n. (1 ≤ n) × (n ≤ length bytes.now) × AreReached (M.mem mem.old) pages.now k n) }
    ensures memory { MatchOption result ((M.mem mem.new) ≡ refused (M.mem mem.old))
        (λ n. (M.mem mem.new) ≡ with_bytes (M.mem mem.old) pages.now k (take n bytes.now)) }
    ensures only_lent { IsByController (M.mem mem.old) (M.mem mem.new) }
{
    let words = eight_words(bytes);
    if mem.hc_write_words(at, &words) {
        Some(32)
    } else {
        None
    }
}

/// Writes the bytes of a word into the first four places.
fn put_four(word: u32, into: &mut [u8])
    requires { 4 ≤ length into.old }
    ensures { into.new ≡ bytes_of word ++ drop 4 into.old }
{
    let parts = word.to_le_bytes();
    into[0] = parts[0];
    into[1] = parts[1];
    into[2] = parts[2];
    into[3] = parts[3];
}

/// Loads 32 bytes, whose places are a whole block, at `at`, into the first 32 places. None: the controller may not touch it, and one more
/// refusal is counted.
#[inline(always)]
pub(crate) fn hc_get_block<M: HcMemory>(
    mem: &mut M,
    pages: &[u32],
    k: u32,
    at: u32,
    into: &mut [u8],
) -> Option<usize>
    requires here { at ≡ place pages.now k }
    requires whole { at % 32 ≡ 0 }
    requires long { 32 ≤ length into.old }
    ensures moved { MatchOption result (reaches (M.mem mem.old) (place pages.now k) ≡ false)
        (λ n. (1 ≤ n) × (n ≤ length into.old) × AreReached (M.mem mem.old) pages.now k n) }
    ensures memory { MatchOption result ((M.mem mem.new) ≡ refused (M.mem mem.old)) (λ n. (M.mem mem.new) ≡ M.mem mem.old) }
    ensures only_lent { IsByController (M.mem mem.old) (M.mem mem.new) }
    ensures bytes { MatchOption result (into.new ≡ into.old) (λ n. into.new ≡ bytes_at (M.mem mem.old) pages.now k n ++ drop n into.old) }
{
    let mut words = [0; 8];
    if !mem.hc_read_words(at, &mut words) {
        return None;
    }
    for i in 0..8 {
        put_four(words[i], &mut into[4 * i..]);
    }
    Some(32)
}
