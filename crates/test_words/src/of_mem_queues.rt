ghost use Rattle.std.specs.Prelude.{◌≡◌, length, IfOk, IfSome};
ghost use Rattle.qh_qtd.specs.QueueHead.{IsQhInRange};

use crate::of_word_mem::are_words;
use mem_queues::{laws, read_qtd, read_queue_head, write_overlay, write_token};
use qh_qtd::{Qh, Token};
use std::alloc::Global;
use std::test::Fail;
use word_mem::WordMem;

/// A queue head in the middle of a split transaction.
const SPLIT: [u32; 12] = [
    0x0001_2344,
    0xA2BC_DB93,
    0xCB96_3C81,
    0x0002_0040,
    0x0003_0061,
    0x0004_0096,
    0x9234_9E35,
    0xABCD_E123,
    0x1234_50A5,
    0x6789_AF6D,
    0xFEDC_B000,
    0x0000_1000,
];

fn head_of(words: &[u32; 12]) -> Option<Qh>
    ensures { IfSome result IsQhInRange }
{
    match Qh::read(words) {
        Ok(head) => Some(head),
        Err(_) => None,
    }
}

#[test]
fn a_queue_head_is_read_and_written_back(rt: HostRuntime) -> Result<(), Fail> {
    let mut words = vec![in rt.alloc(); 0; 1024]?;
    for i in 0..12 {
        words[8 + i] = SPLIT[i];
    }
    let mut mem = WordMem::from_words(rt.alloc(), &words)?;
    let head = read_queue_head(&mut mem, 32).ok_or("no queue head")?;
    assert_eq!(rt;
        (head.addr, head.nak_cnt, head.page2, head.page4),
        (0x13, 0xB, 0x6789A, 1)
    );
    let stepped = Qh {
        nak_cnt: 3,
        page4: 2,
        ..head
    };
    assert!(rt; write_overlay(&mut mem, 32, &stepped));
    are_words(
        &rt,
        &mem,
        &[
            (32, 0x0001_2344),
            (36, 0xA2BC_DB93),
            (40, 0xCB96_3C81),
            (44, 0x0002_0040),
            (52, 0x0004_0086),
            (56, 0x9234_9E35),
            (60, 0xABCD_E123),
            (64, 0x1234_50A5),
            (76, 0x0000_2000),
            (80, 0),
        ],
    );
    let read = read_queue_head(&mut mem, 32);
    assert_eq!(rt; (read, mem.foreign()), (Some(stepped), 0));
    Ok(())
}

/// Memory of which block 0 alone is Lent.
fn first_is_lent(alloc: Global) -> Result<WordMem, Fail>
    ensures { IfOk result (λ mem. length mem.words ≡ 1024) }
{
    let mut mem = WordMem::build(alloc, 1024)?;
    let run = mem.take(1).ok_or("no run of 1")?;
    let _lent = mem.lend(run);
    Ok(mem)
}

/// Of the blocks 0 and 1 only the first is Lent.
#[test]
fn the_second_block_is_refused(rt: HostRuntime) -> Result<(), Fail> {
    let head = head_of(&SPLIT).ok_or("reserved bits")?;
    let mut mem = first_is_lent(rt.alloc())?;
    let is_read = [
        read_queue_head(&mut mem, 0).is_some(),
        read_qtd(&mut mem, 0).is_some(),
    ];
    assert_eq!(rt; (is_read, mem.foreign()), ([false, true], 1));
    assert!(rt; !write_overlay(&mut mem, 0, &head));
    let words = [(8, 0), (12, 0x0002_0040), (28, 0xABCD_E123), (32, 0)];
    are_words(&rt, &mem, &words);
    assert!(rt; !write_overlay(&mut mem, 32, &head));
    are_words(&rt, &mem, &[(44, 0)]);
    assert_eq!(rt; mem.foreign(), 3);
    Ok(())
}

#[test]
fn a_token_is_written(rt: HostRuntime) -> Result<(), Fail> {
    let mut mem = first_is_lent(rt.alloc())?;
    let before = read_qtd(&mut mem, 0).ok_or("no qTD")?;
    let token = Token {
        active: true,
        cerr: 3,
        pid: 1,
        total: 0x200,
        ..before.token
    };
    let is_written = write_token(&mut mem, 0, &token);
    let after = read_qtd(&mut mem, 0).ok_or("no qTD")?;
    assert_eq!(rt;
        (is_written, after.token, after.page4),
        (true, token, before.page4)
    );
    let outside = write_token(&mut mem, 32, &token);
    are_words(&rt, &mem, &[(4, 0), (8, 0x0200_0D80), (12, 0), (40, 0)]);
    assert_eq!(rt; (outside, mem.foreign()), (false, 1));
    assert_eq!(rt; (read_qtd(&mut mem, 4096), mem.foreign()), (None, 2));
    Ok(())
}

#[test]
fn reserved_bits_are_no_refusal(rt: HostRuntime) -> Result<(), Fail> {
    let mut words = vec![in rt.alloc(); 0; 1024]?;
    words[0] = 8;
    let mut mem = WordMem::from_words(rt.alloc(), &words)?;
    let at_first = (read_queue_head(&mut mem, 0), read_qtd(&mut mem, 0));
    assert_eq!(rt; (at_first, mem.foreign()), ((None, None), 0));
    let is_read = [
        read_queue_head(&mut mem, 32).is_some(),
        read_queue_head(&mut mem, 4064).is_some(),
    ];
    assert_eq!(rt; (is_read, mem.foreign()), ([true, false], 1));
    laws::queue_heads_read();
    laws::qtds_read();
    laws::overlays_written();
    laws::tokens_written();
    laws::reads_change_nothing();
    laws::writes_change_no_more();
    laws::written_is_read();
    Ok(())
}
