ghost use Rattle.std.specs.Prelude.{◌≤◌};

use std::process::Abort;
use std::test::Fail;
use word_mem::{BlockState, WordMem};

/// The words at these addresses are these.
pub fn are_words(rt: &impl Abort, mem: &WordMem, rows: &[(u32, u32)]) {
    for (at, word) in rows {
        assert!(rt; *at % 4 == 0 && *at / 4 < mem.words());
        assert_eq!(rt; mem.word(*at), *word, "at {at}");
    }
}

/// The first block of a run that is taken, and how many it has.
fn taken(mem: &mut WordMem, n: u32) -> Option<(u32, u32)>
    requires at_least { 1 ≤ n }
    requires at_most { n ≤ 128 }
{
    let run = mem.take(n)?;
    Some((run.first(), run.blocks()))
}

/// Two pages of 128 blocks: a run stands in one page, and what is given back is handed out again.
#[test]
fn runs_stay_in_a_page(rt: HostRuntime) -> Result<(), Fail> {
    let mut mem = WordMem::build(rt.alloc(), 2048)?;
    assert_eq!(rt; (mem.words(), mem.largest_free()), (2048, 128));
    let first = [
        taken(&mut mem, 100),
        taken(&mut mem, 29),
        taken(&mut mem, 28),
    ];
    assert_eq!(rt; first, [Some((0, 100)), Some((128, 29)), Some((100, 28))]);
    let free = mem.largest_free();
    let rest = [
        taken(&mut mem, 100),
        taken(&mut mem, 99),
        taken(&mut mem, 1),
    ];
    assert_eq!(rt;
        (free, rest, mem.largest_free()),
        (99, [None, Some((157, 99)), None], 0)
    );
    Ok(())
}

/// The driver writes a run and lends it, the controller reads and writes it, and the driver takes it back.
#[test]
fn a_lent_run_is_shared(rt: HostRuntime) -> Result<(), Fail> {
    let mut mem = WordMem::build(rt.alloc(), 1024)?;
    let run = mem.take(2).ok_or("no run of 2")?;
    assert_eq!(rt; (run.first(), run.blocks()), (0, 2));
    mem.kept_write(&run, 36, 7);
    let kept = mem.kept_read(&run, 36);
    assert_eq!(rt; (kept, mem.hc_read(36), mem.foreign()), (7, None, 1));
    let run = mem.lend(run);
    assert_eq!(rt;
        (run.first(), run.blocks(), mem.hc_read(36)),
        (0, 2, Some(7))
    );
    let written = [
        mem.hc_write(60, 9),
        mem.hc_write(64, 9),
        mem.hc_write(4096, 9),
    ];
    assert_eq!(rt; (written, mem.foreign()), ([true, false, false], 3));
    Ok(())
}

#[test]
fn given_words_are_lent(rt: HostRuntime) -> Result<(), Fail> {
    let words = vec![in rt.alloc(); 5; 1024]?;
    let mut mem = WordMem::from_words(rt.alloc(), &words)?;
    assert_eq!(rt;
        (mem.words(), mem.word(4092), mem.largest_free()),
        (1024, 5, 0)
    );
    assert_eq!(rt; mem.state(127), BlockState::Lent);
    assert_eq!(rt; [mem.hc_read(4092), mem.hc_read(4096)], [Some(5), None]);
    assert_eq!(rt; mem.foreign(), 1);
    Ok(())
}

/// Words in a row of a Lent block are written and read whole, and of a Kept block not at all.
#[test]
fn rows_of_words(rt: HostRuntime) -> Result<(), Fail> {
    let mut mem = WordMem::build(rt.alloc(), 1024)?;
    let run = mem.take(1).ok_or("no run of 1")?;
    let _lent = mem.lend(run);
    let mut row = [9; 3];
    let lent = [
        mem.hc_write_words(12, &[1, 2, 3, 4, 5]),
        mem.hc_read_words(8, &mut row),
    ];
    assert_eq!(rt; (lent, row), ([true; 2], [0, 1, 2]));
    let kept = [
        mem.hc_write_words(32, &[7]),
        mem.hc_read_words(32, &mut row),
    ];
    assert_eq!(rt; (kept, row, mem.foreign()), ([false; 2], [0, 1, 2], 2));
    are_words(&rt, &mem, &[(28, 5), (32, 0)]);
    Ok(())
}
