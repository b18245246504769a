ghost use Rattle.std.specs.Prelude.{◌≡◌, [], ◌∷◌, IfOk, IfSome, IsTrue, MatchOption};
ghost use Rattle.std.specs.List.{list_all};
ghost use Rattle.endpoint_script.specs.Items.{is_short, rest_of, nak_given};
ghost use Rattle.endpoint_script.specs.Resets.{is_epoch, next_epoch};

use script_types::Item;
use std::alloc::{AllocError, Global};
use std::marker::Model;
use usb_base::ListOf;

/// A copy of an item.
fn copy_of(alloc: Global, item: &Item) -> Result<Item, AllocError>
    ensures { IfOk result (λ copy. copy ≡ item.now) }
{
    match item {
        Item::Bytes(bytes) => Ok(Item::Bytes(ListOf::of(bytes.as_slice().to_vec(alloc)?))),
        Item::Nak(n) => Ok(Item::Nak(*n)),
        Item::Nyet => Ok(Item::Nyet),
        Item::Stall => Ok(Item::Stall),
        Item::Epoch => Ok(Item::Epoch),
        Item::Request { setup, bytes } => Ok(Item::Request {
            setup: *setup,
            bytes: ListOf::of(bytes.as_slice().to_vec(alloc)?),
        }),
    }
}

/// Whether an epoch begins behind the item.
fn is_epoch(item: &Item) -> bool
    ensures { result ≡ is_epoch item.now }
{
    match item {
        Item::Epoch => true,
        _ => false,
    }
}

/// The items of an endpoint that are left, which contracts see as their list. None of their packets has more than 1,024 bytes.
#[derive(Drop)]
pub struct ItemList {
    items: Vec<Item>,
    next: usize,
}

impl Model for ItemList {
    ghost use Rattle.std.specs.Prelude.{List, drop, IsTrue};
    ghost use Rattle.std.specs.List.{list_all};
    ghost use Rattle.script_types.specs.declared.devices.Item.{Item as Said};
    ghost use Rattle.endpoint_script.specs.Items.{is_short};

    ghost Value = { List Said };

    ghost view = { λ l. drop l.next l.items.items };

    ghost invariant = { λ l. IsTrue (list_all is_short (drop l.next l.items.items)) };
}

impl ItemList {
    /// A copy of these items, none of whose packets has more than 1,024 bytes.
    pub fn copy_of(alloc: Global, items: &[Item]) -> Result<ItemList, AllocError>
        requires { IsTrue (list_all is_short items.now) }
        ensures { IfOk result (λ copy. copy ≡ items.now) }
    {
        let mut copies = Vec::with_capacity(alloc, items.len())?;
        for item in items {
            copies.push(copy_of(alloc, item)?)?;
        }
        Ok(ItemList {
            items: copies,
            next: 0,
        })
    }

    /// The item that stands; `None` exactly past the end.
    pub fn first(&self) -> Option<&Item>
        ensures item { MatchOption result (self.now ≡ []) (λ item. self.now ≡ item.now ∷ rest_of self.now) }
        ensures short { IfSome result (λ item. IsTrue (is_short item.now)) }
    {
        self.items.get(self.next)
    }

    /// The item that stands is over.
    #[tactic(auto, using(crate::proofs::Lists::rest_of_dropped, crate::proofs::Lists::all_of_rest))]
    pub fn advance(&mut self)
        ensures { self.new ≡ rest_of self.old }
    {
        if self.next < self.items.len() {
            self.next += 1;
        }
    }

    /// One NAK was given where NAKs stand: the last one ends the item.
    pub fn give_nak(&mut self)
        ensures { self.new ≡ nak_given self.old }
    {
        let Some(Item::Nak(n)) = self.items.get(self.next) else {
            return;
        };
        let n = *n;
        if n <= 1 {
            self.next += 1;
            return;
        }
        self.items[self.next] = Item::Nak(n - 1);
    }

    /// The items behind the beginning of the next epoch are left, or none where no epoch follows.
    pub fn begin_epoch(&mut self)
        ensures { self.new ≡ next_epoch self.old }
    {
        while let Some(item) = self.first() {
            let found = is_epoch(item);
            self.advance();
            if found {
                return;
            }
        }
    }
}
