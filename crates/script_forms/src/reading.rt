//! Reading what the words of a form say, each by its place.
ghost use Rattle.std.specs.Prelude.{◌≡◌, None, Some, IfOk};
ghost use Rattle.script_forms.specs.Values.{number_at, bytes_at, eight_of, setup_at, way_at, is_down_at, fate_at, named, plain_ep, periodic_ep, statement_of};

use crate::hexes::hex_bytes;
use crate::numbers::number_of;
use crate::statements::{
    Answer, Below, Content, ControlLine, EpLine, FateLine, GetLine, IsoLine, Name, PutLine,
    Statement,
};
use crate::table::{Form, Keyword, keyword_text};
use crate::words::{Word, word_at};
use script_types::Event;
use std::alloc::Global;
use usb_base::{EpKind, Fate, ListOf, Memory, Speed, Way};

/// The number at a place.
fn number_at(at: usize, words: &[Word]) -> u32
    ensures { result ≡ number_at at words.now }
{
    match number_of(word_at(words, at)) {
        Some(n) => n,
        None => 0,
    }
}

/// The bytes at a place.
fn bytes_at(alloc: Global, at: usize, words: &[Word]) -> Result<ListOf<u8>, Memory>
    ensures { IfOk result (λ bytes. bytes ≡ bytes_at at words.now) }
{
    hex_bytes(alloc, word_at(words, at))
}

/// Eight bytes, or eight zeros in place of any other number of bytes.
fn eight(bytes: &[u8]) -> [u8; 8]
    ensures { result ≡ eight_of bytes.now }
{
    match <[u8; 8]>::try_from(bytes) {
        Ok(eight) => eight,
        Err(_) => [0; 8],
    }
}

/// The setup bytes at a place.
fn setup_at(alloc: Global, at: usize, words: &[Word]) -> Result<[u8; 8], Memory>
    ensures { IfOk result (λ setup. setup ≡ setup_at at words.now) }
{
    let bytes = bytes_at(alloc, at, words)?;
    Ok(eight(bytes.as_slice()))
}

/// The way at a place.
fn way_at(at: usize, words: &[Word]) -> Way
    ensures { result ≡ way_at at words.now }
{
    let word = word_at(words, at);
    if word == keyword_text(Keyword::In) {
        return Way::In;
    }
    if word == keyword_text(Keyword::Out) {
        return Way::Out;
    }
    Way::Ctl
}

/// The fate at a place.
fn fate_at(at: usize, words: &[Word]) -> Fate
    ensures { result ≡ fate_at at words.now }
{
    if word_at(words, at) == keyword_text(Keyword::Lost) {
        return Fate::Lost;
    }
    Fate::Damaged
}

/// The endpoint at the first three places.
fn named(words: &[Word]) -> Name
    ensures { result ≡ named words.now }
{
    Name {
        addr: number_at(0, words),
        num: number_at(1, words),
        way: way_at(2, words),
    }
}

/// A hub.
fn hub(words: &[Word], multi: bool) -> Statement
    ensures { result ≡ Statement.Hub (number_at 0 words.now) (number_at 1 words.now) multi }
{
    Statement::Hub(number_at(0, words), number_at(1, words), multi)
}

/// A control or bulk endpoint.
fn plain_ep(kind: EpKind, words: &[Word]) -> Statement
    ensures { result ≡ Statement.Ep (plain_ep kind words.now) }
{
    Statement::Ep(EpLine {
        name: named(words),
        kind,
        max: number_at(4, words),
        period: 0,
        multi: 1,
    })
}

/// An interrupt or isochronous endpoint.
fn periodic_ep(kind: EpKind, words: &[Word]) -> Statement
    ensures { result ≡ Statement.Ep (periodic_ep kind words.now) }
{
    Statement::Ep(EpLine {
        name: named(words),
        kind,
        max: number_at(4, words),
        period: number_at(5, words),
        multi: number_at(6, words),
    })
}

/// A device below a hub.
fn below(speed: Speed, words: &[Word]) -> Statement
    ensures { result ≡ Statement.DevBelow (record { addr = number_at 0 words.now; speed = speed; hub = number_at 2 words.now; port = number_at 3 words.now }) }
{
    Statement::DevBelow(Below {
        addr: number_at(0, words),
        speed,
        hub: number_at(2, words),
        port: number_at(3, words),
    })
}

/// One packet of an endpoint.
fn data(alloc: Global, words: &[Word]) -> Result<Statement, Memory>
    ensures { IfOk result (λ s. s ≡ Statement.Reply (named words.now) (Answer.Data (bytes_at 4 words.now))) }
{
    let bytes = bytes_at(alloc, 4, words)?;
    Ok(Statement::Reply(named(words), Answer::Data(bytes)))
}

/// The bytes of an endpoint in packets.
fn fill(words: &[Word]) -> Statement
    ensures { result ≡ Statement.Reply (named words.now) (Answer.Fill (number_at 4 words.now) (number_at 5 words.now)) }
{
    let answer = Answer::Fill {
        len: number_at(4, words),
        seed: number_at(5, words),
    };
    Statement::Reply(named(words), answer)
}

/// The reply to a request.
fn request(alloc: Global, words: &[Word]) -> Result<Statement, Memory>
    ensures { IfOk result (λ s. s ≡ Statement.Reply (named words.now) (Answer.Request (setup_at 4 words.now) (bytes_at 5 words.now))) }
{
    let setup = setup_at(alloc, 4, words)?;
    let bytes = bytes_at(alloc, 5, words)?;
    Ok(Statement::Reply(named(words), Answer::Request { setup, bytes }))
}

/// What becomes of a packet.
fn fate(words: &[Word]) -> Statement
    ensures { result ≡ Statement.Fate (record { name = named words.now; down = is_down_at 3 words.now; k = number_at 4 words.now; fate = fate_at 5 words.now }) }
{
    Statement::Fate(FateLine {
        name: named(words),
        down: word_at(words, 3) == keyword_text(Keyword::Down),
        k: number_at(4, words),
        fate: fate_at(5, words),
    })
}

/// Bytes that are asked for.
fn get(words: &[Word], by: Option<u32>) -> Statement
    ensures { result ≡ Statement.Get (record { name = named words.now; len = number_at 3 words.now; by = by }) }
{
    Statement::Get(GetLine {
        name: named(words),
        len: number_at(3, words),
        by,
    })
}

/// Bytes that are sent.
fn put(alloc: Global, words: &[Word], by: Option<u32>) -> Result<Statement, Memory>
    ensures { IfOk result (λ s. s ≡ Statement.Put (record { name = named words.now; content = Content.Given (bytes_at 3 words.now); by = by })) }
{
    let bytes = bytes_at(alloc, 3, words)?;
    Ok(Statement::Put(PutLine {
        name: named(words),
        content: Content::Given(bytes),
        by,
    }))
}

/// Bytes that are sent, each one more than the one before.
fn put_fill(words: &[Word], by: Option<u32>) -> Statement
    ensures { result ≡ Statement.Put (record { name = named words.now; content = Content.Fill (number_at 4 words.now) (number_at 5 words.now); by = by }) }
{
    let content = Content::Fill {
        len: number_at(4, words),
        seed: number_at(5, words),
    };
    Statement::Put(PutLine {
        name: named(words),
        content,
        by,
    })
}

/// A request without bytes of its own.
fn control(alloc: Global, words: &[Word]) -> Result<Statement, Memory>
    ensures { IfOk result (λ s. s ≡ Statement.Control (record { addr = number_at 0 words.now; setup = setup_at 1 words.now; bytes = None })) }
{
    let setup = setup_at(alloc, 1, words)?;
    Ok(Statement::Control(ControlLine {
        addr: number_at(0, words),
        setup,
        bytes: None,
    }))
}

/// A request with the bytes of its data stage.
fn control_data(alloc: Global, words: &[Word]) -> Result<Statement, Memory>
    ensures { IfOk result (λ s. s ≡ Statement.Control (record { addr = number_at 0 words.now; setup = setup_at 1 words.now; bytes = Some (bytes_at 2 words.now) })) }
{
    let setup = setup_at(alloc, 1, words)?;
    let bytes = bytes_at(alloc, 2, words)?;
    Ok(Statement::Control(ControlLine {
        addr: number_at(0, words),
        setup,
        bytes: Some(bytes),
    }))
}

/// Isochronous descriptors.
fn iso(words: &[Word], len: u32, seed: u32) -> Statement
    ensures { result ≡ Statement.Iso (record { name = named words.now; count = number_at 3 words.now; len = len; seed = seed }) }
{
    Statement::Iso(IsoLine {
        name: named(words),
        count: number_at(3, words),
        len,
        seed,
    })
}

/// What the words behind the first word say, for the form that they fit. An error is want of memory alone.
#[tactic(auto, unfolding(crate::specs::Values::statement_of))]
pub fn statement(alloc: Global, form: Form, words: &[Word]) -> Result<Statement, Memory>
    ensures { IfOk result (λ s. s ≡ statement_of form words.now) }
{
    match form {
        Form::Mem => Ok(Statement::Mem(number_at(0, words))),
        Form::Hub => Ok(hub(words, false)),
        Form::HubMulti => Ok(hub(words, true)),
        Form::DevHigh => Ok(Statement::DevHigh(number_at(0, words))),
        Form::DevFull => Ok(below(Speed::Full, words)),
        Form::DevLow => Ok(below(Speed::Low, words)),
        Form::EpControl => Ok(plain_ep(EpKind::Control, words)),
        Form::EpBulk => Ok(plain_ep(EpKind::Bulk, words)),
        Form::EpInterrupt => Ok(periodic_ep(EpKind::Interrupt, words)),
        Form::EpIso => Ok(periodic_ep(EpKind::Iso, words)),
        Form::ReplyData => data(alloc, words),
        Form::ReplyFill => Ok(fill(words)),
        Form::ReplyNak => Ok(Statement::Reply(named(words), Answer::Nak(number_at(4, words)))),
        Form::ReplyNyet => Ok(Statement::Reply(named(words), Answer::Nyet)),
        Form::ReplyStall => Ok(Statement::Reply(named(words), Answer::Stall)),
        Form::ReplyRequest => request(alloc, words),
        Form::Fate => Ok(fate(words)),
        Form::Hold => Ok(Statement::Hold(number_at(0, words), number_at(1, words))),
        Form::Open => Ok(Statement::Open(named(words))),
        Form::Cancel => Ok(Statement::Cancel(named(words))),
        Form::Get => Ok(get(words, None)),
        Form::GetBy => Ok(get(words, Some(number_at(5, words)))),
        Form::Put => put(alloc, words, None),
        Form::PutBy => put(alloc, words, Some(number_at(5, words))),
        Form::PutFill => Ok(put_fill(words, None)),
        Form::PutFillBy => Ok(put_fill(words, Some(number_at(7, words)))),
        Form::Control => control(alloc, words),
        Form::ControlData => control_data(alloc, words),
        Form::IsoIn => Ok(iso(words, 0, 0)),
        Form::IsoOut => Ok(iso(words, number_at(4, words), number_at(5, words))),
        Form::OrderD => Ok(Statement::Order(Event::D, number_at(1, words))),
        Form::OrderC => Ok(Statement::Order(Event::C, number_at(1, words))),
        Form::OrderM => Ok(Statement::Micro(number_at(1, words))),
        Form::Epoch => Ok(Statement::Reply(named(words), Answer::Epoch)),
        Form::Clear => Ok(Statement::Clear(named(words))),
        Form::Stuff => Ok(Statement::Stuff(named(words), number_at(3, words))),
        _ => Ok(Statement::Unbuilt),
    }
}
