//! What the release of a cancelled endpoint tells.
ghost use Rattle.std.specs.Prelude.{◌≡◌, ◌≤◌, ◌<◌, ◌+◌, ◌-◌, ◌*◌, ◌^◌, ◌∷◌, ◌++◌, [], if◌then◌else◌, take, map, length, nat_lt, vec_len, vec_capacity};
ghost use Rattle.drv_table.specs.Harvests.{bytes_now, moved_now, left_now, is_current, note_at};
ghost use Rattle.drv_table.specs.DriverContent.{waits_for};
ghost use Rattle.drv_table.specs.Releases.{cancelled_bytes, is_told, let_go, ended_by_cancel};
ghost use Rattle.drv_harvests.specs.Owed.{owed_of};

use crate::buffers::append_buffer;
use crate::tokens::{moved_bytes_of, note_of, token_at, waits_at, word_or_zero};
use drv_table::{Endpoint, QtdNote, Transfer};
use link_words::address;
use qh_qtd::Token;
use usb_base::{EndCause, Report, What};
use word_mem::WordMem;

/// Whether a line of the report tells the endpoint's release.
pub fn is_told_at_release(endpoint: &Endpoint) -> bool
    ensures { result ≡ is_told endpoint.now }
{
    let by_cancel = match endpoint.ended {
        Some(EndCause::Cancel) => true,
        _ => false,
    };
    by_cancel && endpoint.cancelled && !endpoint.gone
}

/// Whether the qTD in this block is the current one of an active overlay.
fn is_current_qtd(mem: &WordMem, queue: u16, block: u16) -> bool
    ensures { result ≡ is_current mem.now queue block }
{
    let token = Token::from_word(word_or_zero(mem, 32 * queue as u32 + 24));
    let current = address(word_or_zero(mem, 32 * queue as u32 + 12));
    token.active && current == 32 * block as u32
}

/// The bytes left of the qTD in this block, under the queue head in the block `queue`.
fn left_of(mem: &WordMem, queue: u16, block: u16) -> u16
    ensures { result ≡ left_now mem.now queue block }
{
    if is_current_qtd(mem, queue, block) {
        Token::from_word(word_or_zero(mem, 32 * queue as u32 + 24)).total
    } else {
        token_at(mem, block).total
    }
}

/// The bytes moved in the qTD in this block: as noted, where its token was read before, else as it stands.
fn moved_by_now(mem: &WordMem, queue: u16, block: u16, note: &QtdNote, before: bool) -> u16
    ensures { result ≡ moved_now mem.now queue block note.now before }
{
    if before {
        note.moved
    } else {
        moved_bytes_of(note.told, left_of(mem, queue, block))
    }
}

/// Appends the bytes moved in a transfer that isn't reported, but at most its most.
#[tactic(auto, using(std::proofs::lemmas::Grind::common_steps, crate::proofs::Moved::now_more, crate::proofs::Moved::now_none))]
fn append_now(
    store: &mut Vec<u8>,
    mem: &WordMem,
    notes: &[QtdNote],
    queue: u16,
    transfer: &Transfer,
)
    requires { vec_len store.old + transfer.now.most ≤ vec_capacity store.old }
    ensures items { store.new.items ≡ store.old.items ++ take transfer.now.most (bytes_now notes.now mem.now queue transfer.now.first transfer.now.qtds transfer.now.left) }
    ensures len { vec_len store.new ≤ vec_len store.old + transfer.now.most }
    ensures capacity { vec_capacity store.new ≡ vec_capacity store.old }
{
    let count = transfer.qtds;
    let mut block = transfer.first;
    let mut most = transfer.most;
    for i in 0..count {
        let note = note_of(notes, block);
        let moved = moved_by_now(mem, queue, block, &note, transfer.left < count - i);
        let n = most.min(moved as u32);
        append_buffer(store, mem, &note, n as u16);
        most -= n;
        block = note.next;
    }
}

/// One more line of the report: the endpoint was cancelled, with the bytes moved of its transfers that aren't reported.
pub fn report_cancel(
    reports: &mut Vec<Report>,
    store: &mut Vec<u8>,
    mem: &WordMem,
    notes: &[QtdNote],
    transfers: &[Transfer],
    e: usize,
    endpoint: &Endpoint,
)
    requires line { vec_len reports.old < vec_capacity reports.old }
    requires bytes { vec_len store.old + owed_of e transfers.now ≤ vec_capacity store.old }
    requires fits { vec_len store.old + owed_of e transfers.now < 2 ^ 32 }
    ensures store { store.new.items ≡ store.old.items ++ cancelled_bytes notes.now mem.now e endpoint.now.queue transfers.now }
    ensures line { reports.new.items ≡ reports.old.items ++
        (record { name = endpoint.now.desc.name; what = What.Cancel; from = length store.old.items; len = length (cancelled_bytes notes.now mem.now e endpoint.now.queue transfers.now) }) ∷ [] }
    ensures len { vec_len reports.new ≡ vec_len reports.old + 1 }
    ensures capacity { vec_capacity reports.new ≡ vec_capacity reports.old }
    ensures store_len { vec_len store.new ≤ vec_len store.old + owed_of e transfers.now }
    ensures store_capacity { vec_capacity store.new ≡ vec_capacity store.old }
{
    let from = store.len();
    append_cancelled(store, mem, notes, e, endpoint.queue, transfers);
    reports.push_reserved(Report {
        name: endpoint.desc.name,
        what: What::Cancel,
        from: from as u32,
        len: (store.len() - from) as u32,
    });
}

/// Appends the bytes moved of the endpoint's transfers that aren't reported.
#[tactic(auto, using(std::proofs::lemmas::Grind::common_steps, crate::proofs::Moved::cancelled_more, crate::proofs::Moved::cancelled_none, crate::proofs::Moved::owed_more))]
fn append_cancelled(
    store: &mut Vec<u8>,
    mem: &WordMem,
    notes: &[QtdNote],
    e: usize,
    queue: u16,
    transfers: &[Transfer],
)
    requires { vec_len store.old + owed_of e transfers.now ≤ vec_capacity store.old }
    ensures items { store.new.items ≡ store.old.items ++ cancelled_bytes notes.now mem.now e queue transfers.now }
    ensures len { vec_len store.new ≤ vec_len store.old + owed_of e transfers.now }
    ensures capacity { vec_capacity store.new ≡ vec_capacity store.old }
{
    for transfer in transfers {
        append_if_waiting(store, mem, notes, e, queue, transfer);
    }
}

/// Appends the bytes moved in a transfer, if it waits at the endpoint.
fn append_if_waiting(
    store: &mut Vec<u8>,
    mem: &WordMem,
    notes: &[QtdNote],
    e: usize,
    queue: u16,
    transfer: &Transfer,
)
    requires { vec_len store.old + (if waits_for e transfer.now then transfer.now.most else 0) ≤ vec_capacity store.old }
    ensures items { store.new.items ≡ store.old.items ++
        (if waits_for e transfer.now then take transfer.now.most (bytes_now notes.now mem.now queue transfer.now.first transfer.now.qtds transfer.now.left) else []) }
    ensures len { vec_len store.new ≤ vec_len store.old + (if waits_for e transfer.now then transfer.now.most else 0) }
    ensures capacity { vec_capacity store.new ≡ vec_capacity store.old }
{
    if !waits_at(transfer, e) {
        return;
    }
    append_now(store, mem, notes, queue, transfer);
}

/// Each transfer of the endpoint lets its blocks go, and with `told` it is reported.
#[tactic(auto, using(std::proofs::lemmas::Grind::common_steps, crate::proofs::Moved::let_go_more))]
pub fn let_all_go(transfers: &mut Vec<Transfer>, e: usize, told: bool)
    ensures items { transfers.new.items ≡ map (let_go e told) transfers.old.items }
    ensures capacity { vec_capacity transfers.new ≡ vec_capacity transfers.old }
{
    for k in 0..transfers.len() {
        transfers[k] = let_one_go(transfers[k], e, told);
    }
}

/// A transfer that lets its blocks go, if it is the endpoint's.
fn let_one_go(transfer: Transfer, e: usize, told: bool) -> Transfer
    ensures { result ≡ let_go e told transfer }
{
    if transfer.endpoint != e {
        return transfer;
    }
    let mut gone = transfer;
    gone.released = true;
    gone.reported = transfer.reported || told;
    gone
}
