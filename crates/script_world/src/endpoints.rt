//! An endpoint that is being declared.
ghost use Rattle.std.specs.Prelude.{◌≡◌, ℕ, ◌<◌, IfOk, [], length};
ghost use Rattle.script_forms.specs.declared.statements.Name.{Name as Named};
ghost use Rattle.script_world.specs.Draft.{way_number, same_way, is_named, is_epoch, epochs_after};
ghost use Rattle.script_world.specs.Rows.{answered, roomier, stuffed};

use crate::bytes::{counted, filled, push, push_packets};
use script_forms::{Answer, Name};
use script_types::{EpText, Item};
use std::alloc::Global;
use std::marker::Model;
use usb_base::{EpDesc, ListOf, Memory, Way};

/// An endpoint and what it does so far, which contracts see as its text.
#[derive(Drop)]
pub struct EpDraft {
    desc: EpDesc,
    items: Vec<Item>,
    room: u32,
    stuff: u8,
}

impl Model for EpDraft {
    ghost use Rattle.std.specs.Prelude.{◌<◌};
    ghost use Rattle.script_types.specs.declared.devices.EpText.{EpText as Told};

    ghost Value = { Told };

    ghost view = { λ e. record { desc = e.desc; items = e.items.items; room = e.room; stuff = e.stuff; clears = 0 } };

    ghost invariant = { λ e. 0 < e.desc.max };
}

/// The number of a way, which tells it from the others.
pub fn way_number(way: Way) -> u8
    ensures { result ≡ way_number way }
{
    match way {
        Way::In => 0,
        Way::Out => 1,
        Way::Ctl => 2,
    }
}

/// Whether two ways are the same.
pub fn same_way(one: Way, other: Way) -> bool
    ensures { result ≡ same_way one other }
{
    way_number(one) == way_number(other)
}

/// Whether what stands behind an item comes in the next epoch.
fn is_epoch(item: &Item) -> bool
    ensures { result ≡ is_epoch item.now }
{
    match item {
        Item::Epoch => true,
        _ => false,
    }
}

impl EpDraft {
    /// An endpoint that does nothing yet.
    pub fn new(alloc: Global, desc: EpDesc) -> EpDraft
        requires { 0 < desc.max }
        ensures { result ≡ record { desc = desc; items = []; room = 0; stuff = 0; clears = 0 } }
    {
        EpDraft {
            desc,
            items: Vec::new(alloc),
            room: 0,
            stuff: 0,
        }
    }

    /// What the host knows of it.
    pub fn desc(&self) -> EpDesc
        ensures { result ≡ self.now.desc }
    {
        self.desc
    }

    /// Whether it has this number and this way.
    pub fn is_named(&self, name: &Name) -> bool
        ensures { result ≡ is_named name.now self.now }
    {
        self.desc.name.num.get() as u32 == name.num && same_way(self.desc.name.way, name.way)
    }

    /// How many epochs it has behind its first.
    pub fn epochs_after(&self) -> usize
        ensures { result ≡ epochs_after self.now }
    {
        self.items.iter().filter(|item| is_epoch(item)).count()
    }

    /// Adds what it does next.
    pub fn answer(&mut self, alloc: Global, answer: Answer) -> Result<(), Memory>
        ensures { IfOk result (λ _. self.new ≡ answered answer self.old) }
    {
        match answer {
            Answer::Data(bytes) => push(&mut self.items, Item::Bytes(bytes)),
            Answer::Fill { len, seed } => {
                let bytes = filled(alloc, len, seed)?;
                let max = self.desc.max as usize;
                push_packets(alloc, &mut self.items, bytes.as_slice(), max)
            }
            Answer::Nak(k) => push(&mut self.items, Item::Nak(k)),
            Answer::Nyet => push(&mut self.items, Item::Nyet),
            Answer::Stall => push(&mut self.items, Item::Stall),
            Answer::Epoch => push(&mut self.items, Item::Epoch),
            Answer::Request { setup, bytes } => {
                push(&mut self.items, Item::Request { setup, bytes })
            }
        }
    }

    /// Gives it room for so many bytes more.
    pub fn make_room(&mut self, len: u64)
        ensures { self.new ≡ roomier len self.old }
    {
        self.room = counted(self.room, len);
    }

    /// Stuffed bits make its packets longer by `p` bytes in 36 (USB 2.0, 7.1.9).
    pub fn set_stuff(&mut self, p: u8)
        ensures { self.new ≡ stuffed p self.old }
    {
        self.stuff = p;
    }

    /// Its text.
    pub fn into_text(self) -> EpText
        ensures { result ≡ self }
    {
        EpText {
            desc: self.desc,
            items: ListOf::of(self.items),
            room: self.room,
            stuff: self.stuff,
            clears: 0,
        }
    }
}
