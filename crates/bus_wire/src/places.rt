ghost use Rattle.std.specs.Prelude.{◌≡◌, ◌<◌, IfOk, List, slice_get};
ghost use Rattle.bus_wire.specs.Seats.{token_kind, place_for, place_at, IsTable};
ghost use Rattle.bus_wire.specs.declared.seats.Seat.{Seat as SeatOf};

use crate::seats::{Seat, column, kind_at, kind_of_token};
use std::alloc::Global;
use std::marker::Model;
use usb_base::{Ask, Memory};

/// How many places the table has: 128 addresses with 16 numbers and four kinds of token each.
const PLACES: usize = 8192;

/// The endpoints of a bus, and a table that finds the one an ask is for.
#[derive(Debug, Drop)]
pub struct Places {
    seats: Vec<Seat>,
    table: Vec<Option<usize>>,
}

impl Model for Places {
    ghost Value = { List SeatOf };

    ghost view = { λ p. p.seats.items };

    ghost invariant = { λ p. IsTable p.seats.items p.table.items };
}

/// The place of the endpoint for this place of the table.
fn find(seats: &[Seat], key: usize) -> Option<usize>
    ensures { result ≡ place_at seats.now key }
{
    let addr = key / 64;
    let num = key / 4 % 16;
    let kind = kind_at(key % 4);
    seats.iter().position(|seat| seat.suits(addr, num, kind))
}

impl Places {
    /// The table of these endpoints.
    pub fn build(alloc: Global, seats: Vec<Seat>) -> Result<Places, Memory>
        ensures { IfOk result (λ p. p ≡ seats.items) }
    {
        let mut table = Vec::with_capacity(alloc, PLACES)?;
        for key in 0..PLACES {
            table.push_reserved(find(&seats, key));
        }
        Ok(Places { seats, table })
    }

    /// The place of the endpoint that an ask is for, by its address, number and token.
    pub fn of_ask(&self, ask: &Ask) -> Option<usize>
        ensures { result ≡ place_for self.now ask.now.addr ask.now.ep (token_kind ask.now.pid) }
    {
        let key = ask.addr.get() as usize * 64
            + ask.ep.get() as usize * 4
            + column(kind_of_token(ask.pid));
        self.look(key)
    }

    fn look(&self, key: usize) -> Option<usize>
        requires { key < 8192 }
        ensures { result ≡ place_at self.now key }
    {
        self.table[key]
    }

    /// All endpoints.
    pub fn seats(&self) -> &[Seat]
        ensures { result.now ≡ self.now }
    {
        self.seats.as_slice()
    }

    /// The endpoint at a place.
    pub fn seat(&self, place: usize) -> Option<Seat>
        ensures { result ≡ slice_get self.now place }
    {
        self.seats.get(place).copied()
    }
}
