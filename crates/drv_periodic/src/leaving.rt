ghost use Rattle.std.specs.Prelude.{◌≡◌, ◌<◌, ◌≤◌, nat_eq, nat_lt, [], length, IfOk, IsTrue};

use crate::departures::Departure;
use crate::readings::{gone_place, read_all};
use drv_chains::Boundary;
use std::alloc::Global;
use std::marker::Model;
use usb_base::Memory;

/// What has left the chains and may still be in the controller's hand, in the order of the last unlinking stores.
#[derive(Drop)]
pub struct Leaving {
    departures: Vec<Departure>,
    room: u32,
}

impl Model for Leaving {
    ghost use Rattle.std.specs.Prelude.{◌≤◌, vec_capacity};
    ghost use Rattle.drv_periodic.specs.Left.{Left};

    ghost Value = { Left };

    ghost view = { λ l. record { departures = l.departures.items; room = l.room } };

    ghost invariant = { λ l. l.room ≤ vec_capacity l.departures };
}

impl Leaving {
    ghost use Rattle.drv_periodic.specs.Left.{left_more, after_frame, first_gone, without_gone};

    /// Nothing has left, and there is room for so many.
    ///
    /// # Errors
    ///
    /// `Memory` where they find no room.
    pub fn build(alloc: Global, room: u32) -> Result<Leaving, Memory>
        ensures { IfOk result (λ l. l ≡ record { departures = []; room = room }) }
    {
        Ok(Leaving {
            departures: Vec::with_capacity(alloc, room as usize)?,
            room,
        })
    }

    /// One more has left: its last unlinking store was made.
    pub fn leave(&mut self, id: u32)
        requires { length self.old.departures < self.old.room }
        ensures { self.new ≡ left_more self.old id }
    {
        self.departures.push_reserved(Departure {
            id,
            boundary: Boundary::Unread,
        });
    }

    /// Whether one more may leave.
    pub fn has_room(&self) -> bool
        ensures test { result ≡ nat_lt (length self.now.departures) self.now.room }
        ensures room { IsTrue result → length self.now.departures < self.now.room }
    {
        self.departures.len() < self.room as usize
    }

    /// Whether nothing has left that isn't given back.
    pub fn is_empty(&self) -> bool
        ensures { result ≡ nat_eq (length self.now.departures) 0 }
    {
        self.departures.len() == 0
    }

    /// One more reading of FRINDEX.
    pub fn read(&mut self, frindex: u16)
        ensures { self.new ≡ after_frame frindex self.old }
    {
        read_all(&mut self.departures, frindex);
    }

    /// Gives out the first whose boundary is seen: two readings since it left had different frame numbers. `None` where there is none.
    pub fn take_gone(&mut self) -> Option<u32>
        ensures gone { result ≡ first_gone self.old }
        ensures left { self.new ≡ without_gone self.old }
    {
        let place = gone_place(&self.departures);
        if place >= self.departures.len() {
            return None;
        }
        let departure = self.departures.remove(place);
        Some(departure.id)
    }
}
