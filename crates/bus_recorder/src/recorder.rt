ghost use Rattle.std.specs.Prelude.{◌≡◌, ◌≤◌, length, slice_get, Option, None, [], true, IfOk, IsTrue};
ghost use Rattle.std.specs.List.{list_all};
ghost use Rattle.endpoint_script.specs.Device.{is_scripted};
ghost use Rattle.hub_class.specs.HubContent.{has_few_ports};
ghost use Rattle.bus_wire.specs.Bus.{opening_wired};
ghost use Rattle.bus_recorder.specs.Recorded.{answer_in, bytes_in, exchange_in, BeginsIn, TransactsIn, forgotten, reset_recorded};

use crate::fates::{fates_of, packets_sent};
use bus_packets::{Answer, Exchange};
use bus_wire::{Seat, Told, UsbBus};
use script_types::{FateText, Script};
use std::alloc::Global;
use std::marker::Model;
use usb_base::{Ask, EpName, Memory, Packet, Reply, Wire};

/// A bus with a record of what went over it last.
#[derive(Drop)]
pub struct Recorder {
    bus: UsbBus,
    fates: Vec<FateText>,
    exchange: Option<Exchange>,
    sent: Packet,
    got: Packet,
    allowed: bool,
}

impl Model for Recorder {
    ghost use Rattle.std.specs.Prelude.{◌≡◌};
    ghost use Rattle.bus_recorder.specs.Recorded.{Recorded};

    ghost Value = { Recorded };

    ghost view = { λ r. record { wired = r.bus; exchange = r.exchange; sent = r.sent; got = r.got; allowed = r.allowed } };

    ghost invariant = { λ r. r.fates.items ≡ r.bus.fixed.fates };
}

/// What came in answer.
pub fn answer_in(reply: &Reply) -> Answer
    ensures { result ≡ answer_in reply.now }
{
    match reply {
        Reply::Silent => Answer::Nothing,
        Reply::Bytes(pid, bytes) => Answer::Data(*pid, bytes.as_slice().len() as u16),
        Reply::Hand(pid) => Answer::Handshake(*pid),
    }
}

/// The bytes of an answer's data.
pub fn bytes_in(reply: &Reply) -> &[u8]
    ensures bytes { result.now ≡ bytes_in reply.now }
    ensures few { length result.now ≤ 1024 }
{
    match reply {
        Reply::Bytes(_, bytes) => bytes.as_slice(),
        Reply::Silent | Reply::Hand(_) => &[],
    }
}

/// What is recorded of a transaction.
fn exchange(fates: &[FateText], ask: &Ask, out: &[u8], answer: &Reply, told: &Told) -> Exchange
    requires { length out.now ≤ 1024 }
    ensures { result ≡ exchange_in fates.now ask.now out.now answer.now told.now }
{
    let asked = &told.asked;
    Exchange {
        ask: *ask,
        sent: out.len() as u16,
        told: *told,
        answer: answer_in(answer),
        fates: fates_of(
            fates,
            &asked.name,
            false,
            asked.packet,
            packets_sent(&ask.split, ask.pid),
        ),
    }
}

impl Recorder {
    /// The bus of a script, at the end of microframe 0, with nothing recorded.
    ///
    /// # Errors
    ///
    /// `Memory` where a part of it finds no room.
    pub fn build(alloc: Global, script: &Script) -> Result<Recorder, Memory>
        requires devices { IsTrue (list_all is_scripted script.now.devices) }
        requires hubs { IsTrue (list_all has_few_ports script.now.hubs) }
        ensures { IfOk result (λ r. r ≡ record { wired = opening_wired script.now; exchange = None; sent = []; got = []; allowed = true }) }
    {
        let bus = UsbBus::build(alloc, script)?;
        let fates = Vec::from_slice(alloc, script.fates.as_slice())?;
        Ok(Recorder {
            bus,
            fates,
            exchange: None,
            sent: Packet::empty(),
            got: Packet::empty(),
            allowed: true,
        })
    }

    /// From now on no transaction is recorded, until the next is made.
    pub fn forget(&mut self)
        ensures { self.new ≡ forgotten self.old }
    {
        self.exchange = None;
    }

    /// The transaction that was made since the record was cleared, the last if there was one.
    pub fn exchange(&self) -> Option<Exchange>
        ensures { result ≡ self.now.exchange }
    {
        self.exchange
    }

    /// The bytes that the host sent in the transaction that was made last.
    pub fn sent(&self) -> &[u8]
        ensures bytes { result.now ≡ self.now.sent }
        ensures few { length self.now.sent ≤ 1024 }
    {
        self.sent.as_slice()
    }

    /// The bytes of the data that came in answer in the transaction that was made last.
    pub fn got(&self) -> &[u8]
        ensures bytes { result.now ≡ self.now.got }
        ensures few { length self.now.got ≤ 1024 }
    {
        self.got.as_slice()
    }

    /// Whether the bus may be used in the microframe that began last.
    pub fn allowed(&self) -> bool
        ensures { result ≡ self.now.allowed }
    {
        self.allowed
    }

    /// The endpoints.
    pub fn seats(&self) -> &[Seat]
        ensures { result.now ≡ self.now.wired.fixed.seats }
    {
        self.bus.seats()
    }

    /// The endpoint with this name is reset, as its halt is cleared (USB 2.0, 9.4.5). No packet is sent.
    pub fn reset(&mut self, name: &EpName)
        ensures { self.new ≡ reset_recorded name.now self.old }
    {
        self.bus.reset(name);
    }

    /// The number of the next packet below a translator of the endpoint at a place, from 0; None exactly where there is no such place.
    pub fn next_below(&self, place: usize) -> Option<u64>
        ensures { result ≡ slice_get self.now.wired.bus.below place }
    {
        self.bus.next_below(place)
    }

    /// The lines of the script that say which packets don't get through.
    pub fn fates(&self) -> &[FateText]
        ensures { result.now ≡ self.now.wired.fixed.fates }
    {
        self.fates.as_slice()
    }
}

impl Wire for Recorder {
    ghost begins = { BeginsIn };

    ghost transacts = { TransactsIn };

    fn begin(&mut self, frindex: u16) -> bool {
        let allowed = self.bus.begin(frindex);
        self.allowed = allowed;
        allowed
    }

    fn transact(&mut self, ask: &Ask, out: &[u8], reply: &mut Reply) {
        let told = self.bus.transact_told(ask, out, reply);
        self.sent.set(out);
        self.got.set(bytes_in(reply));
        match told {
            Some(told) => {
                self.exchange = Some(exchange(self.fates.as_slice(), ask, out, reply, &told));
                told.row.let_hear(reply);
            }
            None => self.exchange = None,
        }
    }
}
