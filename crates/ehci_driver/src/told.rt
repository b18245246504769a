ghost use Rattle.std.specs.Prelude.{◌≡◌, ◌≤◌, ◌<◌, ◌+◌, length, count_by, slice_get, slice_range, option_and_then};
ghost use Rattle.drv_table.specs.DriverContent.{busy, pending, opened, ended, waits_for};
ghost use Rattle.ehci_driver.specs.Standing.{with_refusal};

use crate::driver::Driver;
use bandwidth::Plan;
use drv_table::{Endpoint, Reserve, Transfer};
use usb_base::{EndCause, EpName, OfferError, Report, What};

impl Driver {
    /// Whether an accepted command is unfinished.
    pub fn busy(&self) -> bool
        ensures { result ≡ busy self.now }
    {
        self.command.is_some()
    }

    /// The endpoints that were opened, in their order, with the placement of each that has one.
    pub fn endpoints(&self) -> &[Endpoint]
        ensures { result.now ≡ self.now.endpoints }
    {
        self.endpoints.as_slice()
    }

    /// The plan of the periodic endpoints, each placed under its number.
    pub fn plan(&self) -> &Plan
        ensures { result.now ≡ self.now.periodic.plan }
    {
        self.periodic.plan()
    }

    /// The lines of the report, in the order in which they came.
    pub fn reports(&self) -> &[Report]
        ensures { result.now ≡ self.now.reports }
    {
        self.reports.as_slice()
    }

    /// The bytes of all lines.
    pub fn store(&self) -> &[u8]
        ensures { result.now ≡ self.now.store }
    {
        self.store.as_slice()
    }

    /// The bytes of a line, which lie in `store`.
    pub fn report_bytes(&self, r: &Report) -> &[u8]
        requires { r.now.from + r.now.len ≤ length self.now.store }
        ensures { result.now ≡ slice_range self.now.store r.now.from (r.now.from + r.now.len) }
    {
        let from = r.from as usize;
        &self.store[from..from + r.len as usize]
    }

    /// What of the reserve isn't used. What was used isn't given back.
    pub fn room(&self) -> Reserve
        ensures { result ≡ self.now.room }
    {
        self.room
    }

    /// How many transfers of the endpoint have no line of the report yet; 0 for one that wasn't opened.
    pub fn pending(&self, name: &EpName) -> u32
        ensures { result ≡ pending self.now name.now }
    {
        match self.endpoints.find(name) {
            Some(e) => self.count_waiting(e),
            None => 0,
        }
    }

    /// How many transfers wait at the endpoint of this number.
    pub(crate) fn count_waiting(&self, e: usize) -> u32
        ensures count { result ≡ count_by (waits_for e) self.now.transfers }
        ensures few { result + self.now.room.transfers < 4294967296 }
    {
        count_waiting_in(&self.transfers, e) as u32
    }

    /// Whether an open of the endpoint was accepted.
    pub fn opened(&self, name: &EpName) -> bool
        ensures { result ≡ opened self.now name.now }
    {
        self.endpoints.find(name).is_some()
    }

    /// Why the endpoint ended first: by a halt or miss from its harvest on, by a cancel from its acceptance on. None: it wasn't opened,
    /// or it hasn't ended.
    pub fn ended(&self, name: &EpName) -> Option<EndCause>
        ensures { result ≡ ended self.now name.now }
    {
        match self.endpoints.find(name) {
            Some(e) => self.ended_at(e),
            None => None,
        }
    }

    /// Why the endpoint of this number ended.
    fn ended_at(&self, e: usize) -> Option<EndCause>
        ensures { result ≡ option_and_then (λ x. x.ended) (slice_get self.now.endpoints e) }
    {
        match self.endpoints.get(e) {
            Some(endpoint) => endpoint.ended,
            None => None,
        }
    }

    /// One more line of the report: the command on this line of the script was refused. There is room for it.
    pub fn refuse(&mut self, line: u32, name: EpName, why: OfferError)
        requires { 1 ≤ self.old.room.reports }
        ensures { self.new ≡ with_refusal self.old name line why }
    {
        let from = self.store.len() as u32;
        self.reports.push_reserved(Report {
            name,
            what: What::Refused { line, why },
            from,
            len: 0,
        });
        self.room.reports -= 1;
    }
}

/// How many of these transfers wait at the endpoint of this number.
fn count_waiting_in(transfers: &[Transfer], e: usize) -> usize
    ensures count { result ≡ count_by (waits_for e) transfers.now }
    ensures few { result ≤ length transfers.now }
{
    transfers
        .iter()
        .filter(|transfer| transfer.endpoint == e && !transfer.reported)
        .count()
}
