ghost use Rattle.std.specs.Prelude.{◌≤◌, length};

use crate::of_word_mem::are_words;
use mem_bytes::{hc_load, hc_store, load};
use std::test::Fail;
use word_mem::WordMem;

/// The last word of page 2 and the first of page 0, which comes next.
fn around_the_seam(mem: &WordMem) -> [u8; 8]
    requires { 3072 ≤ length mem.now.words }
{
    let mut whole = [0; 8];
    load(mem, &[2, 0], 4092, &mut whole);
    whole
}

/// From byte 4,093 of page 2 on into page 0, which comes next: the other bytes of both words stay.
#[test]
fn across_pages(rt: HostRuntime) -> Result<(), Fail> {
    let words = vec![in rt.alloc(); 0xAABB_CCDD; 3072]?;
    let mut mem = WordMem::from_words(rt.alloc(), &words)?;
    let is_stored = hc_store(&mut mem, &[2, 0], 4093, &[1, 2, 3, 4, 5, 6]);
    assert_eq!(rt;
        (is_stored, around_the_seam(&mem)),
        (true, [0xDD, 1, 2, 3, 4, 5, 6, 0xAA])
    );
    are_words(
        &rt,
        &mem,
        &[(12284, 0x0302_01DD), (0, 0xAA06_0504), (4, 0xAABB_CCDD)],
    );
    let mut sent = [9; 3];
    let is_loaded = hc_load(&mut mem, &[2, 0], 4095, &mut sent);
    assert_eq!(rt; (is_loaded, sent, mem.foreign()), (true, [3, 4, 5], 0));
    Ok(())
}

/// One Lent block: bytes 30 and 31 are stored and loaded, and the rest is refused once.
#[test]
fn past_what_is_lent(rt: HostRuntime) -> Result<(), Fail> {
    let mut mem = WordMem::build(rt.alloc(), 1024)?;
    let run = mem.take(1).ok_or("no run")?;
    let _lent = mem.lend(run);
    let is_stored = hc_store(&mut mem, &[0], 30, &[1, 2, 3, 4, 5, 6, 7]);
    assert_eq!(rt; (is_stored, mem.foreign()), (false, 1));
    are_words(&rt, &mem, &[(28, 0x0201_0000), (32, 0)]);
    let mut sent = [9; 4];
    let is_loaded = hc_load(&mut mem, &[0], 30, &mut sent);
    assert_eq!(rt; (is_loaded, sent, mem.foreign()), (false, [1, 2, 9, 9], 2));
    Ok(())
}
