use drv_chains::{Descriptor, Member, QueueHead};
use drv_periodic::{Leaving, PeriodicList};
use std::alloc::{AllocError, Global};
use usb_base::Memory;
use word_mem::WordMem;

/// One step of a row. Members are told by the block in which they begin, from 128 on.
#[derive(Clone, Copy, Debug)]
pub enum Step {
    /// A queue head is linked: block, period in microframes, phase.
    Link(u32, u16, u16),
    /// The first stores of it alone are made.
    Begin(u32, u16, u16, u32),
    /// A queue head is unlinked.
    Unlink(u32, u16, u16),
    /// The first stores of it alone are made.
    Leave(u32, u16, u16, u32),
    /// What is under way is completed.
    Complete,
    /// An iTD is linked: block, frame.
    Add(u32, u16),
    /// An iTD is unlinked.
    Drop(u32, u16),
    /// The blocks of a frame.
    Show(u16),
    /// What has left is given back after these readings of FRINDEX.
    Read(u16),
}

/// The list, its words, and what has left.
#[derive(Drop)]
pub struct Play {
    list: PeriodicList,
    mem: WordMem,
    leaving: Leaving,
}

fn queue(block: u32, period: u16, phase: u16) -> Member {
    Member::Each(QueueHead {
        id: block.saturating_mul(32).saturating_add(2),
        period,
        phase,
    })
}

fn itd(block: u32, frame: u16) -> Member {
    Member::Once(Descriptor {
        id: block.saturating_mul(32),
        frame,
    })
}

fn name_of(member: &Member) -> u32 {
    match member {
        Member::Once(descriptor) => descriptor.id,
        Member::Each(queue) => queue.id,
    }
}

impl Play {
    /// An empty list: its 1,024 elements end their frames.
    pub fn build(alloc: Global) -> Result<Play, Memory> {
        let words: Vec<u32> = vec![in alloc; 1; 4096]?;
        Ok(Play {
            list: PeriodicList::build(alloc, 0, 16, 16)?,
            mem: WordMem::from_words(alloc, words.as_slice())?,
            leaving: Leaving::build(alloc, 16)?,
        })
    }

    /// What the step did.
    pub fn step(&mut self, alloc: Global, step: &Step) -> Result<String, AllocError> {
        match *step {
            Step::Link(block, period, phase) => self.link(
                alloc,
                &queue(block, period, phase),
                2000,
            ),
            Step::Begin(block, period, phase, most) => {
                self.link(alloc, &queue(block, period, phase), most)
            }
            Step::Unlink(block, period, phase) => {
                self.unlink(alloc, &queue(block, period, phase), 2000)
            }
            Step::Leave(block, period, phase, most) => {
                self.unlink(alloc, &queue(block, period, phase), most)
            }
            Step::Complete => {
                let made = self.stores(2000);
                format!(in alloc; "{made} stores")
            }
            Step::Add(block, frame) => self.link(alloc, &itd(block, frame), 2000),
            Step::Drop(block, frame) => self.unlink(alloc, &itd(block, frame), 2000),
            Step::Show(frame) => self.show(alloc, frame),
            Step::Read(frindex) => self.read(alloc, frindex),
        }
    }

    fn link(&mut self, alloc: Global, member: &Member, most: u32) -> Result<String, AllocError> {
        if !self.list.takes(member) {
            return format!(in alloc; "refused");
        }
        let behind = self.list.link_behind(member);
        self.mem.hc_write(name_of(member) / 32 * 32, behind);
        self.list.begin_insert(member);
        let made = self.stores(most);
        format!(in alloc; "{made} stores")
    }

    fn unlink(&mut self, alloc: Global, member: &Member, most: u32) -> Result<String, AllocError> {
        if !self.list.may_remove(member) {
            return format!(in alloc; "refused");
        }
        self.list.begin_remove(member);
        let made = self.stores(most);
        if self.list.is_idle() && self.leaving.has_room() {
            self.leaving.leave(name_of(member) / 32);
        }
        format!(in alloc; "{made} stores")
    }

    /// Makes at most so many stores.
    fn stores(&mut self, most: u32) -> u32 {
        let mut made = 0u32;
        for _store in 0..most {
            if let Some(store) = self.list.next_store() {
                self.mem.hc_write(store.at, store.value);
                let _ = self.list.advance();
                made = made.saturating_add(1);
            }
        }
        made
    }

    /// The blocks that the words of a frame lead to.
    fn show(&mut self, alloc: Global, frame: u16) -> Result<String, AllocError> {
        let mut text = format!(in alloc; "frame {frame}:")?;
        let mut at = 4 * frame as u32;
        for _member in 0..20u32 {
            match self.mem.hc_read(at - at % 4) {
                Some(word) if word % 2 == 0 => {
                    let block = word / 32;
                    text.push_str(format!(in alloc; " {block}")?.as_str())?;
                    at = block * 32;
                }
                _ => return Ok(text),
            }
        }
        Ok(text)
    }

    fn read(&mut self, alloc: Global, frindex: u16) -> Result<String, AllocError> {
        self.leaving.read(frindex);
        match self.leaving.take_gone() {
            Some(block) => format!(in alloc; "{block} is gone"),
            None => format!(in alloc; "none is gone"),
        }
    }
}
