ghost use Rattle.std.specs.Prelude.{◌≡◌};
ghost use Rattle.app_probe.specs.Silence.{may_be_used};

use app_probe::{ProbeError, Probed, probe};
use hc_core::{Controller, HcStep};
use image_show::ImageAt;
use op_registers::Registers;
use std::alloc::Global;
use std::process::Abort;
use std::test::Fail;
use usb_base::{Ask, ListOf, Pid, Reply, Wire};
use word_mem::WordMem;

/// The image of 2,048 words with an empty frame list at 0 and the head of an empty ring at 1000h, with some words, by address, written
/// otherwise.
fn image(alloc: Global, changes: &[(u32, u32)]) -> Result<ImageAt, Fail> {
    let mut words = vec![in alloc; 0u32; 2048]?;
    for element in 0..1024 {
        words[element] = 1;
    }
    let head = [
        (0x1000, 0x1002),
        (0x1004, 0x40_a000),
        (0x1008, 0x4000_0000),
        (0x1010, 1),
        (0x1014, 1),
        (0x1018, 0x40),
    ];
    for (address, word) in head.iter().chain(changes) {
        let at = (*address / 4) as usize;
        if at < words.len() {
            words[at] = *word;
        }
    }
    Ok(ImageAt {
        frindex: 0,
        list_base: 0,
        async_at: 0x1000,
        base: 0,
        words: ListOf::of(words),
    })
}

fn is_probed(
    rt: &impl Abort,
    alloc: Global,
    changes: &[(u32, u32)],
    n: u32,
    expected: Probed,
) -> Result<(), Fail> {
    let image = image(alloc, changes)?;
    let probed = match probe(alloc, &image, n) {
        Ok(probed) => probed,
        Err(_) => return Err("not probed".into()),
    };
    assert_eq!(rt; probed, expected);
    Ok(())
}

/// A queue head at 1040h that leads on to itself.
const BEHIND: [(u32, u32); 5] = [
    (0x1040, 0x1042),
    (0x1044, 0x2003),
    (0x1048, 0),
    (0x1050, 1),
    (0x1054, 1),
];

// Rings that never come back to their head, or lead to what is no queue head.
#[test]
fn rings(rt: HostRuntime) -> Result<(), Fail> {
    let rows: [(u32, u32, u32, u64, bool); 5] = [
        (0x1042, 0x2003, 100, 0, false),
        (0x10_0002, 0x2003, 4, 1, true),
        (0x1046, 0x2003, 4, 0, true),
        (0x1040, 0x2003, 4, 0, true),
        (0x1042, 0x3003, 4, 0, true),
    ];
    for (link, characteristics, steps, foreign, fault) in rows {
        let mut changes = BEHIND;
        changes[1] = (0x1044, characteristics);
        let ends = [(0x1000, link)];
        let mut both = Vec::from_slice(rt.alloc(), &changes)?;
        both.extend_from_slice(&ends)?;
        let expected = Probed {
            steps,
            foreign,
            fault,
        };
        is_probed(&rt, rt.alloc(), &both, 100, expected)?;
    }
    Ok(())
}

// No event, one, and those of an empty ring: none of them is refused.
#[test]
fn numbers(rt: HostRuntime) -> Result<(), Fail> {
    for n in [0, 1, 2, 3, 50_000] {
        let expected = Probed {
            steps: n,
            foreign: 0,
            fault: false,
        };
        is_probed(&rt, rt.alloc(), &[], n, expected)?;
    }
    let stopped = [(0x1000, 0x10_0002)];
    for (n, steps) in [(3, 3), (4, 4), (5, 4), (50_000, 4)] {
        let expected = Probed {
            steps,
            foreign: (n > 3) as u64,
            fault: n > 3,
        };
        is_probed(&rt, rt.alloc(), &stopped, n, expected)?;
    }
    Ok(())
}

/// Whether an image is probed, or its alignment is refused.
fn alignment_of(alloc: Global, image: &ImageAt) -> Option<bool> {
    match probe(alloc, image, 1) {
        Ok(_) => Some(true),
        Err(ProbeError::Alignment) => Some(false),
        Err(ProbeError::Memory(_)) => None,
    }
}

// Each register at the first value that breaks its range or its alignment.
#[test]
fn alignments(rt: HostRuntime) -> Result<(), Fail> {
    let mut wild = image(rt.alloc(), &[])?;
    for (async_at, list_base, frindex, is_aligned) in [
        (0x1004, 0, 0, false),
        (0x1000, 0x800, 0, false),
        (0x1000, 0, 0x4000, false),
        (0x1000, 0, 0x3fff, true),
    ] {
        wild.async_at = async_at;
        wild.list_base = list_base;
        wild.frindex = frindex;
        assert_eq!(rt; alignment_of(rt.alloc(), &wild), Some(is_aligned));
    }
    Ok(())
}

// Words from 7FF40000h on: a ring there goes round, and a link to the same place from address 0 on finds no word.
#[test]
fn words_from_a_base(rt: HostRuntime) -> Result<(), Fail> {
    for (link, steps, foreign, fault) in [(0x7ff4_1002, 100, 0, false), (0x1002, 4, 1, true)] {
        let mut wild = image(rt.alloc(), &[(0x1000, link)])?;
        wild.base = 0x7ff4_0000;
        wild.list_base = 0x7ff4_0000;
        wild.async_at = 0x7ff4_1000;
        let expected = Probed {
            steps,
            foreign,
            fault,
        };
        assert_eq!(rt; probe(rt.alloc(), &wild, 100).ok(), Some(expected));
    }
    Ok(())
}

// Numbers of words that no image has, and the least and the most that one has.
#[test]
fn numbers_of_words(rt: HostRuntime) -> Result<(), Fail> {
    let mut wild = image(rt.alloc(), &[])?;
    for (count, is_aligned) in [
        (0, false),
        (1023, false),
        (1025, false),
        (1536, false),
        (262_145, false),
        (263_168, false),
        (1024, true),
        (262_144, true),
    ] {
        wild.words = ListOf::of(vec![in rt.alloc(); 1u32; count]?);
        assert_eq!(rt; alignment_of(rt.alloc(), &wild), Some(is_aligned));
    }
    Ok(())
}

/// A wire on which each transaction is answered by eight bytes of data.
#[derive(Drop)]
struct EightBytes;

impl Wire for EightBytes {
    ghost begins = { may_be_used };

    ghost transacts = { λ w ask out reply v. v ≡ w };

    fn begin(&mut self, _frindex: u16) -> bool {
        true
    }

    fn transact(&mut self, _ask: &Ask, _out: &[u8], reply: &mut Reply) {
        reply.set_bytes(Pid::Data0, &[0xa5; 8]);
    }
}

/// The words of memory, added up so that one changed word is seen.
fn sum_of(mem: &WordMem) -> u32 {
    let mut sum = 0u32;
    for place in 0..mem.words() {
        sum = sum.wrapping_mul(31).wrapping_add(mem.word(4 * place));
    }
    sum
}

/// The memory of an image of two pages, with some words written otherwise.
fn memory(alloc: Global, changes: &[(u32, u32)]) -> Result<WordMem, Fail> {
    let image = image(alloc, changes)?;
    let words = image.words.as_slice();
    if words.len() != 2048 {
        return Err("other than two pages".into());
    }
    Ok(WordMem::from_words(alloc, words)?)
}

// Eight bytes come for a buffer whose page lies outside: the one refusal, the fault, and no word changes.
#[test]
fn bytes_for_a_buffer_outside(rt: HostRuntime) -> Result<(), Fail> {
    let changes = [
        (0x1000, 0x1042),
        (0x1040, 0x1002),
        (0x1044, 0x0200_2103),
        (0x1048, 0x4000_0000),
        (0x1050, 0x1080),
        (0x1054, 1),
        (0x1080, 1),
        (0x1084, 1),
        (0x1088, 0x0008_0d80),
        (0x108c, 0x0010_0000),
    ];
    let mut mem = memory(rt.alloc(), &changes)?;
    let mut regs = Registers::reset();
    regs.driver_write(0x18, 0x1000);
    regs.driver_write(0x00, 0x0008_0031);
    let mut controller = Controller::new();
    let mut wire = EightBytes;
    for step in [
        HcStep::Begin,
        HcStep::Fetch,
        HcStep::Skip,
        HcStep::Fetch,
        HcStep::Advance,
        HcStep::Transact,
    ] {
        let made = controller.step(&mut regs, &mut mem, &mut wire);
        assert_eq!(rt; (made, mem.foreign()), (step, 0));
    }
    let before = sum_of(&mem);
    // (Reclamation, HCHalted and Host System Error.)
    for step in [HcStep::End, HcStep::Idle] {
        let made = controller.step(&mut regs, &mut mem, &mut wire);
        assert_eq!(rt;
            (made, mem.foreign(), regs.driver_read(0x04)),
            (step, 1, Some(0x3010))
        );
        assert_eq!(rt; sum_of(&mem), before);
    }
    Ok(())
}
