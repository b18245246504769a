use crate::of_word_mem::are_words;
use mem_runs::RunBook;
use std::test::Fail;
use word_mem::WordMem;

/// Two runs are taken, lent, written and given back: memory is as it was.
#[test]
fn runs_come_and_go(rt: HostRuntime) -> Result<(), Fail> {
    let mut mem = WordMem::build(rt.alloc(), 1024)?;
    let mut book = RunBook::build(rt.alloc(), &mem)?;
    let taken = [book.take(&mut mem, 2), book.take(&mut mem, 1)];
    assert_eq!(rt;
        (taken, book.taken().len(), mem.largest_free()),
        ([Some(0), Some(2)], 2, 125)
    );
    book.lend_taken(&mut mem);
    book.store_words(&mut mem, 0, 32, &[7, 8]);
    book.store(&mut mem, 2, 60, 9);
    assert_eq!(rt; book.taken().len(), 0);
    are_words(&rt, &mem, &[(32, 7), (36, 8), (60, 0)]);
    book.release(&mut mem, 0);
    book.release(&mut mem, 2);
    are_words(&rt, &mem, &[(32, 0)]);
    assert_eq!(rt; (mem.words(), mem.largest_free()), (1024, 128));
    Ok(())
}

/// What was taken is given back down to a mark.
#[test]
fn runs_are_given_back(rt: HostRuntime) -> Result<(), Fail> {
    let mut mem = WordMem::build(rt.alloc(), 1024)?;
    let mut book = RunBook::build(rt.alloc(), &mem)?;
    let taken = [
        book.take(&mut mem, 100),
        book.take(&mut mem, 20),
        book.take(&mut mem, 9),
    ];
    book.give_back(&mut mem, 1);
    assert_eq!(rt;
        (taken, book.taken().len()),
        ([Some(0), Some(100), None], 1)
    );
    assert_eq!(rt; book.take(&mut mem, 9), Some(100));
    Ok(())
}
