//! What a transfer's end leaves: its line of the report, the endpoint's next transfer, and the stores that a stalled endpoint is owed.
ghost use Rattle.std.specs.Prelude.{◌≡◌, ◌≤◌, ◌<◌, ◌+◌, ◌-◌, ◌^◌, length, take, Some, None, IfSome, ◌++◌, ◌∷◌, [], vec_len, vec_capacity, position};
ghost use Rattle.std.specs.VecDeque.{deque_len, deque_capacity};
ghost use Rattle.drv_table.specs.DriverContent.{next_after, waits_for};
ghost use Rattle.drv_table.specs.Harvests.{moved_bytes};
ghost use Rattle.drv_table.specs.Harvesting.{mends_of};

use crate::buffers::append_moved;
use drv_table::{Endpoint, Mend, QtdNote, Transfer};
use std::collections::VecDeque;
use usb_base::{EpName, Report, What};
use word_mem::WordMem;

/// One more line of the report: the bytes that were moved in the transfer.
pub fn report(
    reports: &mut Vec<Report>,
    store: &mut Vec<u8>,
    mem: &WordMem,
    notes: &[QtdNote],
    transfer: &Transfer,
    what: What,
    name: EpName,
)
    requires line { vec_len reports.old < vec_capacity reports.old }
    requires bytes { vec_len store.old + transfer.now.most ≤ vec_capacity store.old }
    requires fits { vec_len store.old + transfer.now.most < 2 ^ 32 }
    ensures store { store.new.items ≡ store.old.items ++ take transfer.now.most (moved_bytes notes.now mem.now transfer.now.first transfer.now.qtds) }
    ensures line { reports.new.items ≡ reports.old.items ++
        (record { name = name; what = what; from = length store.old.items; len = length (take transfer.now.most (moved_bytes notes.now mem.now transfer.now.first transfer.now.qtds)) }) ∷ [] }
    ensures len { vec_len reports.new ≡ vec_len reports.old + 1 }
    ensures capacity { vec_capacity reports.new ≡ vec_capacity reports.old }
    ensures store_len { vec_len store.new ≤ vec_len store.old + transfer.now.most }
    ensures store_capacity { vec_capacity store.new ≡ vec_capacity store.old }
{
    let from = store.len();
    append_moved(
        store,
        mem,
        notes,
        transfer.first,
        transfer.qtds,
        transfer.most,
    );
    reports.push_reserved(Report {
        name,
        what,
        from: from as u32,
        len: (store.len() - from) as u32,
    });
}

/// The endpoint's first transfer after number `t` that isn't harvested.
pub fn next_waiting(transfers: &[Transfer], e: usize, t: usize) -> Option<usize>
    requires { t < length transfers.now }
    ensures { result ≡ next_after transfers.now e t }
{
    match first_waiting_of(&transfers[t + 1..], e) {
        Some(i) => Some(t + 1 + i),
        None => None,
    }
}

/// The first of these transfers that waits at the endpoint.
fn first_waiting_of(transfers: &[Transfer], e: usize) -> Option<usize>
    ensures place { result ≡ position (waits_for e) transfers.now }
    ensures within { IfSome result (λ i. i < length transfers.now) }
{
    transfers
        .iter()
        .position(|transfer| transfer.endpoint == e && !transfer.reported)
}

/// The stores that a stalled endpoint is owed: words 4 to 6 of its queue head.
pub fn owe_stores(mends: &mut VecDeque<Mend>, endpoint: &Endpoint)
    requires { deque_len mends.old + 3 ≤ deque_capacity mends.old }
    ensures mends { mends.new.items ≡ mends.old.items ++ mends_of endpoint.now }
    ensures len { deque_len mends.new ≡ deque_len mends.old + 3 }
    ensures capacity { deque_capacity mends.new ≡ deque_capacity mends.old }
{
    let queue = endpoint.queue;
    let at = 32 * queue as u32;
    mends.push_back_reserved(Mend {
        queue,
        at: at + 16,
        value: 32 * endpoint.dummy as u32,
    });
    mends.push_back_reserved(Mend {
        queue,
        at: at + 20,
        value: 1,
    });
    mends.push_back_reserved(Mend {
        queue,
        at: at + 24,
        value: 0,
    });
}
