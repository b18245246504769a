//! Which events are left out, and what is told of the others.
ghost use Rattle.std.specs.Prelude.{◌≡◌, ◌≤◌, ◌++◌, IfOk, length};
ghost use Rattle.std.specs.List.{list_any};
ghost use Rattle.app_trace_lines.specs.declared.entries.Happening.TheVariants.{Began};
ghost use Rattle.bus_wire.specs.Fates.{is_same_way, is_same_name};
ghost use Rattle.app_trace.specs.Chosen.{is_idle, is_active, is_rest, is_still, is_quiet, is_exchange_of, is_work_of, is_about, is_wanted, is_chosen, told_as, chosen_line, head_of};

use crate::captured::put_entry_packets;
use app_trace_lines::{Entry, Happening, Work, put_entry};
use bus_capture::file_header;
use bus_packets::{Exchange, Passed};
use drv_jobs::JobRow;
use drv_table::{DriverRow, Found};
use hc_core::HcStep;
use std::alloc::Global;
use usb_base::{EpName, Memory, Way};

/// What is told of an event.
#[derive(Clone, Copy, Debug, PartialEq, Eq)]
pub enum Form {
    /// A line.
    Lines,
    /// Its packets, each in its block.
    Capture,
    /// Nothing of an event: where periodic endpoints stand once the run has ended, and what they cost.
    Schedule,
}

/// Which events are told, and how.
#[derive(Clone, Copy, Debug, PartialEq, Eq)]
pub struct Choice {
    /// What is told of them.
    pub form: Form,
    /// Those of this endpoint alone: its transactions, and each Begin after which packets of it were below. None: all.
    pub endpoint: Option<EpName>,
    /// From this microframe on.
    pub from: u32,
    /// Up to this microframe.
    pub to: u32,
    /// Only events that move something, or find it moved.
    pub quiet: bool,
    /// Whether a long run says on standard error that it goes on.
    pub progress: bool,
    /// Whether the driver finishes the command under way before the next is offered.
    pub wait: bool,
}

fn are_same_ways(a: Way, b: Way) -> bool
    ensures { result ≡ is_same_way a b }
{
    match (a, b) {
        (Way::In, Way::In) | (Way::Out, Way::Out) | (Way::Ctl, Way::Ctl) => true,
        _ => false,
    }
}

fn are_same_names(a: &EpName, b: &EpName) -> bool
    ensures { result ≡ is_same_name a.now b.now }
{
    a.addr.get() == b.addr.get() && a.num.get() == b.num.get() && are_same_ways(a.way, b.way)
}

fn is_idle(step: HcStep) -> bool
    ensures { result ≡ is_idle step }
{
    match step {
        HcStep::Begin | HcStep::Fetch | HcStep::Skip | HcStep::End | HcStep::Idle => true,
        HcStep::Advance | HcStep::Transact | HcStep::WriteBack => false,
    }
}

fn is_active(found: Found) -> bool
    ensures { result ≡ is_active found }
{
    match found {
        Found::Active => true,
        Found::Moved(_) | Found::Ended(_, _) | Found::Served(_) => false,
    }
}

fn is_rest(row: DriverRow) -> bool
    ensures { result ≡ is_rest row }
{
    match row {
        DriverRow::Lend | DriverRow::LendDescriptors => false,
        DriverRow::ReleaseRemoved(_)
        | DriverRow::ReleaseTransfer(_)
        | DriverRow::ReleaseEndpoint(_) => false,
        DriverRow::Harvest(_, _, found) => is_active(found),
        DriverRow::Store(_, _, _) | DriverRow::Mend(_) | DriverRow::Unlink(_) => true,
        DriverRow::Frames | DriverRow::ReadFrame(_) | DriverRow::ReadStatus(_) => true,
        DriverRow::ClearAdvance | DriverRow::RingBell | DriverRow::Rest => true,
    }
}

/// The same of an event with its job: the reset of an endpoint is told, and the end of a clear.
fn is_still(row: JobRow) -> bool
    ensures { result ≡ is_still row }
{
    match row {
        JobRow::Plain(row) => is_rest(row),
        JobRow::ReadsFrame(_) | JobRow::Mends(_) => true,
        JobRow::EndsRequest(_, _, _, _) | JobRow::Resets(_) | JobRow::Reopens(_) => false,
    }
}

fn is_quiet_begin(allowed: bool, works: &[Work]) -> bool
    ensures { result ≡ is_quiet (Began allowed) works.now }
{
    match works {
        [] => allowed,
        _ => false,
    }
}

/// Whether the event moves nothing.
fn is_quiet(happening: &Happening, works: &[Work]) -> bool
    ensures { result ≡ is_quiet happening.now works.now }
{
    match happening {
        Happening::Began(allowed) => is_quiet_begin(*allowed, works),
        Happening::Controller { step, .. } => is_idle(*step),
        Happening::Driver { row, .. } => is_still(*row),
        Happening::Offered(_, _) => false,
    }
}

fn is_exchange_of(name: &EpName, exchange: &Option<Exchange>) -> bool
    ensures { result ≡ is_exchange_of name.now exchange.now }
{
    match exchange {
        Some(x) => are_same_names(&x.told.asked.name, name),
        None => false,
    }
}

#[tactic(auto, unfolding(crate::specs::Chosen::is_work_of))]
fn is_work_of(name: &EpName, work: &Work) -> bool
    ensures { result ≡ is_work_of name.now work.now }
{
    are_same_names(&work.name, name)
}

fn has_work_of(name: &EpName, works: &[Work]) -> bool
    ensures { result ≡ list_any (is_work_of name.now) works.now }
{
    works.iter().any(|work| is_work_of(name, work))
}

/// Whether the event is about this endpoint.
fn is_about(name: &EpName, happening: &Happening, works: &[Work]) -> bool
    ensures { result ≡ is_about name.now happening.now works.now }
{
    match happening {
        Happening::Began(_) => has_work_of(name, works),
        Happening::Controller { exchange, .. } => is_exchange_of(name, exchange),
        Happening::Driver { .. } | Happening::Offered(_, _) => false,
    }
}

fn is_wanted(endpoint: &Option<EpName>, happening: &Happening, works: &[Work]) -> bool
    ensures { result ≡ is_wanted endpoint.now happening.now works.now }
{
    match endpoint {
        Some(name) => is_about(name, happening, works),
        None => true,
    }
}

impl Choice {
    ghost use Rattle.app_trace.specs.Watched.{Told};

    /// Whether an event or command is told.
    fn is_chosen(&self, entry: &Entry, works: &[Work]) -> bool
        ensures { result ≡ is_chosen self.now entry.now works.now }
    {
        self.from <= entry.microframe
            && entry.microframe <= self.to
            && is_wanted(&self.endpoint, &entry.happening, works)
            && !(self.quiet && is_quiet(&entry.happening, works))
    }

    /// Appends what is told of an event or command.
    fn put_told(
        &self,
        text: &mut Vec<u8>,
        entry: &Entry,
        works: &[Work],
        passed: &[Passed],
        sent: &[u8],
        got: &[u8],
    ) -> Result<(), Memory>
        requires sent { length sent.now ≤ 1024 }
        requires got { length got.now ≤ 1024 }
        ensures { IfOk result (λ _. text.new.items ≡ text.old.items ++ told_as self.now.form
            (record { entry = entry.now; works = works.now; passed = passed.now; sent = sent.now; got = got.now })) }
    {
        match self.form {
            Form::Lines => put_entry(text, entry, works, passed),
            Form::Capture => put_entry_packets(text, entry, passed, sent, got),
            Form::Schedule => Ok(()),
        }
    }

    /// Appends what is told of an event or command, if it is wanted. The bytes are those of the data that went in its transaction.
    pub fn put(
        &self,
        text: &mut Vec<u8>,
        entry: &Entry,
        works: &[Work],
        passed: &[Passed],
        sent: &[u8],
        got: &[u8],
    ) -> Result<(), Memory>
        requires sent { length sent.now ≤ 1024 }
        requires got { length got.now ≤ 1024 }
        ensures { IfOk result (λ _. text.new.items ≡ text.old.items ++ chosen_line self.now
            (record { entry = entry.now; works = works.now; passed = passed.now; sent = sent.now; got = got.now })) }
    {
        if self.is_chosen(entry, works) {
            return self.put_told(text, entry, works, passed, sent, got);
        }
        Ok(())
    }

    /// What stands before all that is told.
    pub fn head(&self, alloc: Global) -> Result<Vec<u8>, Memory>
        ensures { IfOk result (λ text. text.items ≡ head_of self.now.form) }
    {
        match self.form {
            Form::Lines | Form::Schedule => Ok(Vec::new(alloc)),
            Form::Capture => Ok(Vec::from_slice(alloc, &file_header())?),
        }
    }
}
