ghost use Rattle.std.specs.Prelude.{◌≡◌, ℕ, ◌≤◌, List, [], length};

use arrayvec::ArrayVec;
use std::marker::Model;

/// A list of things in a vector, which contracts see as the list of its items.
#[derive(Debug, Drop)]
pub struct ListOf<T> {
    items: Vec<T>,
}

impl<T> Model for ListOf<T> {
    ghost Value = { List T };

    ghost view = { λ l. l.items.items };
}

impl<T> ListOf<T> {
    /// The list of these items. It takes no memory.
    pub fn of(items: Vec<T>) -> ListOf<T>
        ensures { result ≡ items.items }
    {
        ListOf { items }
    }

    /// The items in their order.
    pub fn as_slice(&self) -> &[T]
        ensures { result.now ≡ self.now }
    {
        self.items.as_slice()
    }
}

/// The bytes of one data packet, at most 1,024 (USB 2.0, 5.6.3 and 5.8.3), which contracts see as a list of bytes.
#[derive(Debug, Drop)]
pub struct Packet {
    bytes: ArrayVec<u8, 1024>,
}

impl Model for Packet {
    ghost Value = { List ℕ };

    ghost view = { λ p. p.bytes.items };
}

impl Packet {
    /// The packet of these bytes. It takes no memory.
    pub fn of(items: ArrayVec<u8, 1024>) -> Packet
        ensures { result ≡ items.items }
    {
        Packet { bytes: items }
    }

    /// The packet of no bytes.
    pub fn empty() -> Packet
        ensures { result ≡ [] }
    {
        Packet {
            bytes: ArrayVec::new(),
        }
    }

    /// A packet with a copy of `bytes`.
    pub fn copy_of(bytes: &[u8]) -> Packet
        requires { length bytes.now ≤ 1024 }
        ensures { result ≡ bytes.now }
    {
        let mut copy = ArrayVec::new();
        let _fits = copy.try_extend_from_slice(bytes);
        Packet { bytes: copy }
    }

    /// Becomes a copy of `bytes`, in the room that it has.
    pub fn set(&mut self, bytes: &[u8])
        requires { length bytes.now ≤ 1024 }
        ensures { self.new ≡ bytes.now }
    {
        self.bytes.clear();
        let _fits = self.bytes.try_extend_from_slice(bytes);
    }

    /// The bytes in their order, at most 1,024.
    pub fn as_slice(&self) -> &[u8]
        ensures bytes { result.now ≡ self.now }
        ensures bound { length self.now ≤ 1024 }
    {
        self.bytes.as_slice()
    }
}
