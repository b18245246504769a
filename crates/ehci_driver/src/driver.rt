use drv_endpoints::Endpoints;
use drv_frames_content::PeriodicPart;
use drv_table::{Bell, Command, Mend, QtdNote, Reserve, Transfer, Turn};
use mem_runs::RunBook;
use std::collections::VecDeque;
use std::marker::Model;
use usb_base::Report;

/// The driver of the host controller.
#[derive(Drop)]
pub struct Driver {
    pub(crate) book: RunBook,
    pub(crate) endpoints: Endpoints,
    pub(crate) transfers: Vec<Transfer>,
    pub(crate) notes: Vec<QtdNote>,
    pub(crate) command: Option<Command>,
    pub(crate) made: u8,
    pub(crate) turn: Turn,
    pub(crate) place: usize,
    pub(crate) mends: VecDeque<Mend>,
    pub(crate) harvested: VecDeque<usize>,
    pub(crate) waiting: VecDeque<usize>,
    pub(crate) rung: VecDeque<usize>,
    pub(crate) cleared: VecDeque<usize>,
    pub(crate) bell: Bell,
    pub(crate) reports: Vec<Report>,
    pub(crate) store: Vec<u8>,
    pub(crate) room: Reserve,
    pub(crate) periodic: PeriodicPart,
}

impl Model for Driver {
    ghost use Rattle.drv_table.specs.DriverContent.{DriverContent};
    ghost use Rattle.ehci_driver.specs.Rooms.{HasRooms, HasFrameRooms};
    ghost use Rattle.std.specs.VecDeque.{deque_len, deque_capacity};
    ghost use Rattle.std.specs.Prelude.{vec_len, vec_capacity};

    ghost Value = { DriverContent };

    ghost view = { λ d. record {
      book = d.book;
      endpoints = d.endpoints.items;
      transfers = d.transfers.items;
      notes = d.notes.items;
      command = d.command;
      made = d.made;
      turn = d.turn;
      place = d.place;
      mends = d.mends.items;
      harvested = d.harvested.items;
      waiting = d.waiting.items;
      rung = d.rung.items;
      cleared = d.cleared.items;
      bell = d.bell;
      reports = d.reports.items;
      store = d.store.items;
      room = d.room;
      periodic = d.periodic.periodic;
    } };

    ghost invariant = { λ d. HasRooms d.endpoints.items d.transfers.items d.room
        d.endpoints.most (vec_capacity d.transfers)
        (vec_len d.reports) (vec_capacity d.reports) (vec_len d.store) (vec_capacity d.store)
        (deque_len d.harvested) (deque_capacity d.harvested) (deque_len d.mends) (deque_capacity d.mends)
        (deque_len d.waiting) (deque_capacity d.waiting) (deque_len d.rung) (deque_capacity d.rung) (deque_len d.cleared) (deque_capacity d.cleared)
        × HasFrameRooms d.endpoints.items d.transfers.items d.room d.periodic };
}
