ghost use Rattle.std.specs.Prelude.{◌≡◌, ℕ, ◌+◌, ◌*◌, ◌≤◌, length};
ghost use Rattle.usb_base.specs.Limits.{most_memory};
ghost use Rattle.image_show.specs.Shown.{descriptor, is_outside, itd_at_address, queue_head, sitd_at_address, word_at};

use itd_sitd::{Itd, Sitd};
use link_words::Bad;
use qh_qtd::{Qh, Qtd};

/// Whether `n` words from a byte address on aren't all within memory.
pub fn reaches_outside(words: &[u32], at: u32, n: u32) -> bool
    requires memory { length words.now ≤ most_memory }
    requires size { n ≤ 16 }
    ensures { result ≡ is_outside words.now at n }
{
    at as u64 + 4 * n as u64 > 4 * words.len() as u64
}

/// The word at a byte address.
pub fn read_word(words: &[u32], at: u32) -> u32
    requires { at + 4 ≤ 4 * length words.now }
    ensures { result ≡ word_at words.now at }
{
    words[(at / 4) as usize]
}

/// The queue element transfer descriptor at a byte address (EHCI 1.0, 3.5).
pub fn read_descriptor(words: &[u32], at: u32) -> Result<Qtd, Bad>
    requires { at + 32 ≤ 4 * length words.now }
    ensures { result ≡ descriptor words.now at }
{
    let (_, rest) = words.split_at((at / 4) as usize);
    let (front, _) = rest.split_at(8);
    let mut own = [0; 8];
    own.copy_from_slice(front);
    Qtd::read(&own)
}

/// The queue head at a byte address (EHCI 1.0, 3.6).
pub fn read_queue_head(words: &[u32], at: u32) -> Result<Qh, Bad>
    requires { at + 48 ≤ 4 * length words.now }
    ensures { result ≡ queue_head words.now at }
{
    let (_, rest) = words.split_at((at / 4) as usize);
    let (front, _) = rest.split_at(12);
    let mut own = [0; 12];
    own.copy_from_slice(front);
    Qh::read(&own)
}

/// The isochronous transfer descriptor at a byte address (EHCI 1.0, 3.3).
pub fn read_itd(words: &[u32], at: u32) -> Result<Itd, Bad>
    requires { at + 64 ≤ 4 * length words.now }
    ensures { result ≡ itd_at_address words.now at }
{
    let (_, rest) = words.split_at((at / 4) as usize);
    let (front, _) = rest.split_at(16);
    let mut own = [0; 16];
    own.copy_from_slice(front);
    Itd::read(&own)
}

/// The split-transaction isochronous transfer descriptor at a byte address (EHCI 1.0, 3.4).
pub fn read_sitd(words: &[u32], at: u32) -> Result<Sitd, Bad>
    requires { at + 28 ≤ 4 * length words.now }
    ensures { result ≡ sitd_at_address words.now at }
{
    let (_, rest) = words.split_at((at / 4) as usize);
    let (front, _) = rest.split_at(7);
    let mut own = [0; 7];
    own.copy_from_slice(front);
    Sitd::read(&own)
}
