ghost use Rattle.std.specs.Prelude.{◌≡◌, ◌≤◌, ◌+◌, ◌-◌, Option, Some, slice_get, IfOk};
ghost use Rattle.bus_wire.specs.Asking.{unheard_later, losses_of};
ghost use Rattle.bus_wire.specs.Fixed.{fixed_of, is_held, AreNumbers, IsSeated};
ghost use Rattle.bus_wire.specs.Seats.{token_kind, place_for};

use crate::asked::{Asked, Losses};
use crate::build::{numbers_of, seats_of};
use crate::numbers::Numbers;
use crate::places::Places;
use crate::seats::Seat;
use crate::who_heard::steps_later;
use script_types::{FateText, Script};
use std::alloc::Global;
use std::marker::Model;
use usb_base::{Ask, Memory};

/// What never changes of a bus in a run: its endpoints, the fates of their packets, and the holds. Contracts see a `Fixed`.
#[derive(Drop)]
pub struct FixedBus {
    places: Places,
    fates: Vec<FateText>,
    holds: Vec<(u32, u32)>,
    /// By the place of an endpoint: its packets on the high-speed bus that don't get through.
    high: Vec<Numbers>,
    /// By the place of an endpoint: its packets below a translator that don't get through.
    below: Vec<Numbers>,
}

impl Model for FixedBus {
    ghost use Rattle.std.specs.Prelude.{false, true};
    ghost use Rattle.bus_wire.specs.Fixed.{Fixed, AreNumbers};

    ghost Value = { Fixed };

    ghost view = { λ f. record { seats = f.places; fates = f.fates.items; holds = f.holds.items } };

    ghost invariant = { λ f. AreNumbers f.fates.items false f.places f.high.items × AreNumbers f.fates.items true f.places f.below.items };
}

/// Whether the bus may not be used in this microframe.
fn holds_back(holds: &[(u32, u32)], microframe: u64) -> bool
    ensures { result ≡ is_held holds.now microframe }
{
    holds.iter().any(|span| span.0 as u64 <= microframe && microframe <= span.1 as u64)
}

impl FixedBus {
    /// What a script says of its bus.
    pub fn build(alloc: Global, script: &Script) -> Result<FixedBus, Memory>
        ensures { IfOk result (λ f. f ≡ fixed_of script.now) }
    {
        let seats = seats_of(alloc, script)?;
        let fates = Vec::from_slice(alloc, script.fates.as_slice())?;
        let holds = Vec::from_slice(alloc, script.holds.as_slice())?;
        let high = numbers_of(alloc, fates.as_slice(), false, seats.as_slice())?;
        let below = numbers_of(alloc, fates.as_slice(), true, seats.as_slice())?;
        let places = Places::build(alloc, seats)?;
        Ok(FixedBus {
            places,
            fates,
            holds,
            high,
            below,
        })
    }

    /// The endpoints.
    pub fn seats(&self) -> &[Seat]
        ensures { result.now ≡ self.now.seats }
    {
        self.places.seats()
    }

    /// The endpoint at a place.
    pub fn seat(&self, place: usize) -> Option<Seat>
        ensures { result ≡ slice_get self.now.seats place }
    {
        self.places.seat(place)
    }

    /// The place of the endpoint that an ask is for.
    pub fn place_of(&self, ask: &Ask) -> Option<usize>
        ensures { result ≡ place_for self.now.seats ask.now.addr ask.now.ep (token_kind ask.now.pid) }
    {
        self.places.of_ask(ask)
    }

    /// Whether the bus may not be used in this microframe.
    pub fn holds_back(&self, microframe: u64) -> bool
        ensures { result ≡ is_held self.now.holds microframe }
    {
        holds_back(self.holds.as_slice(), microframe)
    }

    /// The numbers of the packets that don't get through, below a translator or on the high-speed bus.
    fn numbers(&self, below: bool) -> &[Numbers]
        ensures { AreNumbers self.now.fates below self.now.seats result.now }
    {
        if below {
            self.below.as_slice()
        } else {
            self.high.as_slice()
        }
    }

    /// Whether the packet some packets later is lost or damaged.
    fn is_unheard(&self, below: bool, asked: &Asked, n: u64) -> bool
        requires { IsSeated self.now.seats asked.now }
        ensures { result ≡ unheard_later self.now.fates below asked.now n }
    {
        let numbers = self.numbers(below);
        if asked.place < numbers.len() {
            numbers[asked.place].has(steps_later(asked.packet, n))
        } else {
            false
        }
    }

    /// Which packets of a transaction are lost or damaged, of which so many are sent before the answer.
    pub fn losses(&self, below: bool, asked: &Asked, sent: u64) -> Losses
        requires seated { IsSeated self.now.seats asked.now }
        requires some { 1 ≤ sent }
        requires few { sent ≤ 2 }
        ensures { result ≡ losses_of self.now.fates below asked.now sent }
    {
        Losses {
            sent: self.is_unheard(below, asked, 0) || self.is_unheard(below, asked, sent - 1),
            answer: self.is_unheard(below, asked, sent),
            acknowledgement: self.is_unheard(below, asked, sent + 1),
        }
    }
}
