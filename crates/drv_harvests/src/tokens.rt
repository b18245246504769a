//! What a token that is read tells (EHCI 1.0, 3.5.3 and 4.15.1).
ghost use Rattle.std.specs.Prelude.{◌≡◌, ◌≤◌, ℕ};
ghost use Rattle.drv_table.specs.Harvests.{note_at, token_in, found_in, moved_of, done_of, ends_by, halt_of, is_get, end_of, is_stall};
ghost use Rattle.drv_table.specs.DriverContent.{waits_for};
ghost use Rattle.word_mem.specs.Memory.{word_at};

use drv_table::{Found, QtdNote, Sort, Transfer};
use drv_words::is_for_control;
use qh_qtd::Token;
use usb_base::{EndCause, EpKind, What};
use word_mem::WordMem;

/// What is known of the qTD in a block.
pub fn note_of(notes: &[QtdNote], block: u16) -> QtdNote
    ensures { result ≡ note_at notes.now block }
{
    match notes.get(block as usize) {
        Some(note) => *note,
        None => QtdNote {
            next: 0,
            buffer: [0; 5],
            runs: 0,
            told: 0,
            moved: 0,
        },
    }
}

/// Whether the transfer is the endpoint's and isn't reported.
pub fn waits_at(transfer: &Transfer, e: usize) -> bool
    ensures { result ≡ waits_for e transfer.now }
{
    transfer.endpoint == e && !transfer.reported
}

/// The word at the byte address `at`, and 0 past the last word.
pub fn word_or_zero(mem: &WordMem, at: u32) -> u32
    ensures { result ≡ word_at mem.now at }
{
    if at / 4 < mem.words() {
        mem.word(at - at % 4)
    } else {
        0
    }
}

/// The token of the qTD in this block.
pub fn token_at(mem: &WordMem, block: u16) -> Token
    ensures { result ≡ token_in mem.now block }
{
    Token::from_word(word_or_zero(mem, 32 * block as u32 + 8))
}

/// What a token tells.
pub fn found(sort: Sort, last: bool, note: &QtdNote, token: &Token) -> Found
    ensures { result ≡ found_in sort last note.now token.now }
{
    if token.active {
        return Found::Active;
    }
    let moved = moved_bytes_of(note.told, token.total);
    if token.halted {
        return Found::Ended(moved, halt(token));
    }
    if last || asks_bytes(sort) && token.total != 0 {
        return Found::Ended(moved, What::Done);
    }
    Found::Moved(moved)
}

/// How many of `told` bytes were moved where `left` are left: none where more are left than there were.
pub fn moved_bytes_of(told: u16, left: u16) -> u16
    ensures moved { result ≡ moved_of told left }
    ensures within { result ≤ told }
{
    if left <= told { told - left } else { 0 }
}

fn asks_bytes(sort: Sort) -> bool
    ensures { result ≡ is_get sort }
{
    match sort {
        Sort::Get => true,
        Sort::Put | Sort::Request | Sort::Descriptor => false,
    }
}

/// Why a token is halted (EHCI 1.0, 4.15.1).
fn halt(token: &Token) -> What
    ensures { result ≡ halt_of token.now }
{
    if token.missed {
        return What::Miss;
    }
    if token.babble {
        return What::Halt(EndCause::Babble);
    }
    if token.cerr == 0 {
        return What::Halt(EndCause::Error);
    }
    What::Halt(EndCause::Stall)
}

/// The cause by which an endpoint of this kind ends (USB 2.0, 8.5.3.4).
pub fn end_cause(kind: EpKind, what: What) -> Option<EndCause>
    ensures { result ≡ end_of kind what }
{
    match what {
        What::Miss => Some(EndCause::Miss),
        What::Halt(EndCause::Stall) => {
            if is_for_control(kind) {
                None
            } else {
                Some(EndCause::Stall)
            }
        }
        What::Halt(cause) => Some(cause),
        What::Done | What::Cancel | What::Iso { .. } | What::Refused { .. } => None,
        What::Clear | What::ClearFailed(_) | What::Port { .. } => None,
        What::Disk { .. } | What::DiskReset => None,
    }
}

/// Whether the line tells a STALL.
pub fn tells_stall(what: What) -> bool
    ensures { result ≡ is_stall what }
{
    match what {
        What::Halt(EndCause::Stall) => true,
        _ => false,
    }
}
