ghost use Rattle.std.specs.Prelude.{◌≡◌, ℕ, ◌+◌, ◌*◌, ◌/◌, ◌%◌, ◌<◌, ◌≤◌, if◌then◌else◌, length, take, drop, ◌++◌, Some, None, slice_set, MatchOption, false};
ghost use Rattle.word_mem.specs.Memory.{reaches, refused, word_at, with_word};
ghost use Rattle.word_mem.specs.Access.{IsByController};
ghost use Rattle.mem_bytes.specs.Bytes.{ArePages, place, with_byte, with_bytes, word_of, bytes_of, bytes_at, AreReached};

use crate::blocks::{hc_get_block, hc_put_block};
use hc_memory::HcMemory;
use word_mem::WordMem;

/// The bytes of a page (EHCI 1.0, 3.5.4).
const PAGE: u32 = 4096;

/// The byte address of byte `k` of a buffer in these pages.
pub(crate) fn address(pages: &[u32], k: u32) -> u32
    requires pages { ArePages pages.now }
    requires inside { k < 4096 * length pages.now }
    ensures { result ≡ place pages.now k }
{
    pages[(k / PAGE) as usize] * PAGE + k % PAGE
}

/// The word that the byte address `at` lies in. None: the controller may not touch it, and one more refusal is counted.
pub(crate) fn hc_word<M: HcMemory>(mem: &mut M, at: u32) -> Option<u32>
    ensures word { result ≡ (if reaches (M.mem mem.old) at then Some (word_at (M.mem mem.old) at) else None) }
    ensures memory { M.mem mem.new ≡ (if reaches (M.mem mem.old) at then M.mem mem.old else refused (M.mem mem.old)) }
    ensures only_lent { IsByController (M.mem mem.old) (M.mem mem.new) }
{
    mem.hc_read(at - at % 4)
}

/// Writes the word that the byte address `at` lies in. False: the controller may not touch it, and one more refusal is counted.
pub(crate) fn hc_put_word<M: HcMemory>(mem: &mut M, at: u32, word: u32) -> bool
    ensures written { result ≡ reaches (M.mem mem.old) at }
    ensures memory { M.mem mem.new ≡ (if reaches (M.mem mem.old) at then with_word (M.mem mem.old) at word else refused (M.mem mem.old)) }
    ensures only_lent { IsByController (M.mem mem.old) (M.mem mem.new) }
{
    mem.hc_write(at - at % 4, word)
}

/// The word with another byte at `place`, 0 to 3 from the lowest.
fn with_part(word: u32, place: u32, byte: u8) -> u32
    requires { place < 4 }
    ensures { result ≡ word_of (slice_set (bytes_of word) place byte) }
{
    let mut parts = word.to_le_bytes();
    parts[place as usize] = byte;
    u32::from_le_bytes(parts)
}

/// Puts one byte at the byte address `at`. False: the controller may not touch its word, and one more refusal is counted.
#[tactic(auto, unfolding(crate::specs::Bytes::put_byte))]
pub(crate) fn hc_put_byte<M: HcMemory>(mem: &mut M, at: u32, byte: u8) -> bool
    ensures put { result ≡ reaches (M.mem mem.old) at }
    ensures memory { M.mem mem.new ≡ (if reaches (M.mem mem.old) at then with_byte (M.mem mem.old) at byte else refused (M.mem mem.old)) }
    ensures only_lent { IsByController (M.mem mem.old) (M.mem mem.new) }
{
    match hc_word(mem, at) {
        None => false,
        Some(word) => hc_put_word(mem, at, with_part(word, at % 4, byte)),
    }
}

/// Stores the first 32 of these bytes where they make a block, the first four where they make a word, and else the first. None: the controller may not touch its place, and
/// one more refusal is counted.
pub(crate) fn hc_put<M: HcMemory>(mem: &mut M, pages: &[u32], k: u32, bytes: &[u8]) -> Option<usize>
    requires pages { ArePages pages.now }
    requires inside { k + length bytes.now ≤ 4096 * length pages.now }
    requires some { 1 ≤ length bytes.now }
    ensures moved { MatchOption result (reaches (M.mem mem.old) (place pages.now k) ≡ false)
        (λ n. (1 ≤ n) × (n ≤ length bytes.now) × AreReached (M.mem mem.old) pages.now k n) }
    ensures memory { MatchOption result ((M.mem mem.new) ≡ refused (M.mem mem.old))
        (λ n. (M.mem mem.new) ≡ with_bytes (M.mem mem.old) pages.now k (take n bytes.now)) }
    ensures only_lent { IsByController (M.mem mem.old) (M.mem mem.new) }
{
    let at = address(pages, k);
    if at % 32 == 0 && bytes.len() >= 32 {
        return hc_put_block(mem, pages, k, at, bytes);
    }
    if at % 4 == 0 && bytes.len() >= 4 {
        let word = u32::from_le_bytes([bytes[0], bytes[1], bytes[2], bytes[3]]);
        if hc_put_word(mem, at, word) {
            return Some(4);
        }
        return None;
    }
    if hc_put_byte(mem, at, bytes[0]) {
        Some(1)
    } else {
        None
    }
}

/// Writes the bytes of `word` from the byte address `at` on into the first places of `into`: all four where they are one whole word of
/// what is wanted, and else one. How many they are.
fn spread(word: u32, at: u32, into: &mut [u8]) -> usize
    requires { 1 ≤ length into.old }
    ensures some { 1 ≤ result }
    ensures within { result ≤ length into.old }
    ensures one_word { at % 4 + result ≤ 4 }
    ensures bytes { into.new ≡ take result (drop (at % 4) (bytes_of word)) ++ drop result into.old }
{
    let parts = word.to_le_bytes();
    if at % 4 == 0 && into.len() >= 4 {
        into[0] = parts[0];
        into[1] = parts[1];
        into[2] = parts[2];
        into[3] = parts[3];
        return 4;
    }
    into[0] = parts[(at % 4) as usize];
    1
}

/// Loads the first 32 bytes where they make a block, the first four where they make a word, and else the first. None: the controller may not touch its place, and one more
/// refusal is counted.
pub(crate) fn hc_get<M: HcMemory>(
    mem: &mut M,
    pages: &[u32],
    k: u32,
    into: &mut [u8],
) -> Option<usize>
    requires pages { ArePages pages.now }
    requires inside { k + length into.old ≤ 4096 * length pages.now }
    requires some { 1 ≤ length into.old }
    ensures moved { MatchOption result (reaches (M.mem mem.old) (place pages.now k) ≡ false)
        (λ n. (1 ≤ n) × (n ≤ length into.old) × AreReached (M.mem mem.old) pages.now k n) }
    ensures memory { MatchOption result ((M.mem mem.new) ≡ refused (M.mem mem.old)) (λ n. (M.mem mem.new) ≡ M.mem mem.old) }
    ensures only_lent { IsByController (M.mem mem.old) (M.mem mem.new) }
    ensures bytes { MatchOption result (into.new ≡ into.old) (λ n. into.new ≡ bytes_at (M.mem mem.old) pages.now k n ++ drop n into.old) }
{
    let at = address(pages, k);
    if at % 32 == 0 && into.len() >= 32 {
        return hc_get_block(mem, pages, k, at, into);
    }
    match hc_word(mem, at) {
        None => None,
        Some(word) => Some(spread(word, at, into)),
    }
}

/// The word that the byte address `at` lies in, whoever owns it.
fn word(mem: &WordMem, at: u32) -> u32
    requires { at < 4 * length mem.now.words }
    ensures { result ≡ word_at mem.now at }
{
    mem.word(at - at % 4)
}

/// Reads the first four bytes where they make a word, and else the first. How many they are.
pub(crate) fn get(mem: &WordMem, pages: &[u32], k: u32, into: &mut [u8]) -> usize
    requires pages { ArePages pages.now }
    requires inside { k + length into.old ≤ 4096 * length pages.now }
    requires some { 1 ≤ length into.old }
    requires there { place pages.now k < 4 * length mem.now.words }
    ensures some { 1 ≤ result }
    ensures within { result ≤ length into.old }
    ensures bytes { into.new ≡ bytes_at mem.now pages.now k result ++ drop result into.old }
{
    let at = address(pages, k);
    spread(word(mem, at), at, into)
}
