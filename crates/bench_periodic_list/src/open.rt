use drv_chains::{Member, QueueHead};
use drv_periodic::PeriodicList;
use std::alloc::{AllocError, Global};
use usb_base::Memory;

/// How many queue heads are opened.
const OPENED: u32 = 256;

/// The periods that are opened in turn.
const PERIODS: [u16; 14] = [
    1, 2, 4, 8, 16, 32, 64, 128, 256, 512, 1024, 2048, 4096, 8192,
];

/// The queue head number `n`: its phase goes through the frames of its period.
fn queue(n: u32) -> Member {
    let period = PERIODS[(n % 14) as usize];
    let frames = (period / 8).max(1);
    Member::Each(QueueHead {
        id: (128 + 2 * (n % 4096)) * 32 + 2,
        period,
        phase: (n % 4096 * 37 % frames as u32) as u16,
    })
}

/// Links this member, and tells how many stores that takes.
fn link(list: &mut PeriodicList, member: &Member) -> u32 {
    if !list.takes(member) {
        return 0;
    }
    list.begin_insert(member);
    let mut made = 0u32;
    for _store in 0..1024u32 {
        if list.next_store().is_some() {
            let _ = list.advance();
            made = made.saturating_add(1);
        }
    }
    made
}

/// Opens them all, and tells how many stores that takes.
fn open(alloc: Global) -> Result<u32, Memory> {
    let mut list = PeriodicList::build(alloc, 0, OPENED, 1)?;
    let mut made = 0u32;
    for n in 0..OPENED {
        made = made.saturating_add(link(&mut list, &queue(n)));
    }
    Ok(made)
}

/// What opening them all gives.
pub(crate) fn describe(alloc: Global) -> Result<String, AllocError> {
    match open(alloc) {
        Ok(made) => format!(in alloc; "256 queue heads, {made} stores"),
        Err(Memory) => format!(in alloc; "no memory"),
    }
}
