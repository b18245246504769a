ghost use Rattle.std.specs.Prelude.{◌≡◌, ℕ, ◌-◌, ◌≤◌, ◌++◌, List, [], length, take};

use arrayvec::ArrayVec;
use std::marker::Model;

/// The bytes that start-splits brought for one transaction, at most 1,024, which contracts see as their list.
#[derive(Debug, Drop)]
pub struct OutData {
    bytes: ArrayVec<u8, 1024>,
}

impl Model for OutData {
    ghost Value = { List ℕ };

    ghost view = { λ d. d.bytes.items };
}

impl OutData {
    /// No bytes.
    pub fn empty() -> OutData
        ensures { result ≡ [] }
    {
        OutData {
            bytes: ArrayVec::new(),
        }
    }

    /// The bytes in their order.
    pub fn as_slice(&self) -> &[u8]
        ensures bytes { result.now ≡ self.now }
        ensures bound { length self.now ≤ 1024 }
    {
        self.bytes.as_slice()
    }

    /// Appends as many bytes of `piece` as there is room for.
    pub fn append(&mut self, piece: &[u8])
        ensures { self.new ≡ self.old ++ take (1024 - length self.old) piece.now }
    {
        let room = 1024 - self.as_slice().len();
        let fits = usize::min(piece.len(), room);
        for byte in &piece[..fits] {
            self.bytes.push(*byte);
        }
    }
}
