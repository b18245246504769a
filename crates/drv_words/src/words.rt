ghost use Rattle.std.specs.Prelude.{◌≡◌, ◌≤◌, ◌<◌, if◌then◌else◌, unwrap_or};
ghost use Rattle.usb_base.specs.Limits.{longest_qtd};
ghost use Rattle.qh_qtd.specs.Qtd.{IsQtdInRange};
ghost use Rattle.qh_qtd.specs.QueueHead.{IsQhInRange};
ghost use Rattle.drv_table.specs.Words.{to_queue_head, to_qtd, idle_token, is_high, speed_field, is_control, queue_head, interrupt_head, opening_head, dummy_qtd, new_token, alternate_link, new_qtd};
ghost use Rattle.link_words.specs.Layout.{IsWordInRange};
ghost use Rattle.qh_qtd.specs.Token.{token_rows};

use drv_table::{Alternate, Stage};
use link_words::{LinkBits, ShortLink};
use qh_qtd::{Qh, Qtd, Token};
use usb_base::{EpDesc, EpKind, Speed};

/// The block in which the head of the ring begins, right after the frame list.
pub const HEAD_BLOCK: u16 = 128;

/// A link to the queue head that begins in this block (EHCI 1.0, 3.3.1).
fn link_to_queue_head(block: u16) -> LinkBits
    ensures { result ≡ to_queue_head block }
{
    LinkBits {
        t: false,
        typ: 1,
        address: 32 * block as u32,
    }
}

/// A link to the qTD in this block.
fn link_to_qtd(block: u16) -> ShortLink
    ensures { result ≡ to_qtd block }
{
    ShortLink {
        t: false,
        address: 32 * block as u32,
    }
}

/// A token of which nothing is to be done.
fn token_of_nothing(halted: bool) -> Token
    ensures token { result ≡ idle_token halted }
    ensures range { IsWordInRange token_rows result }
{
    Token {
        halted,
        ..Token::blank()
    }
}

/// Whether the speed is high speed.
fn runs_at_high(speed: Speed) -> bool
    ensures { result ≡ is_high speed }
{
    match speed {
        Speed::High => true,
        Speed::Full | Speed::Low => false,
    }
}

/// The speed field of a queue head (EHCI 1.0, 3.6.2).
fn speed_bits(speed: Speed) -> u8
    ensures { result ≡ speed_field speed }
{
    match speed {
        Speed::Full => 0,
        Speed::Low => 1,
        Speed::High => 2,
    }
}

/// Whether it is a control endpoint.
pub fn is_for_control(kind: EpKind) -> bool
    ensures { result ≡ is_control kind }
{
    match kind {
        EpKind::Control => true,
        EpKind::Iso | EpKind::Bulk | EpKind::Interrupt => false,
    }
}

/// The hub of a queue head: none at high speed.
fn hub_bits(desc: &EpDesc, high: bool) -> u8
    ensures hub { result ≡ (if high then 0 else unwrap_or desc.now.hub 0) }
    ensures range { result < 128 }
{
    if high {
        return 0;
    }
    match desc.hub {
        Some(hub) => hub.get(),
        None => 0,
    }
}

/// The queue head of a new endpoint, with its link at the queue head in block `link`, and the qTD in block `dummy` as its only one.
pub fn new_queue_head(desc: &EpDesc, link: u16, dummy: u16) -> Qh
    requires max { desc.now.max ≤ 1024 }
    requires port { desc.now.port ≤ 127 }
    ensures head { result ≡ queue_head desc.now link dummy }
    ensures range { IsQhInRange result }
{
    let high = runs_at_high(desc.speed);
    let control = is_for_control(desc.kind);
    Qh {
        link: link_to_queue_head(link),
        addr: desc.name.addr.get(),
        ep: desc.name.num.get(),
        eps: speed_bits(desc.speed),
        dtc: control,
        max: desc.max,
        control: control && !high,
        rl: if high { 4 } else { 0 },
        hub: hub_bits(desc, high),
        port: if high { 0 } else { desc.port },
        mult: 1,
        next: link_to_qtd(dummy),
        ..Qh::blank()
    }
}

/// The queue head of a new interrupt endpoint with these masks and this link word (EHCI 1.0, 3.6 and 4.6).
pub fn new_interrupt_head(desc: &EpDesc, smask: u8, cmask: u8, link: u32, dummy: u16) -> Qh
    requires max { desc.now.max ≤ 1024 }
    requires port { desc.now.port ≤ 127 }
    requires multi { desc.now.multi ≤ 3 }
    ensures head { result ≡ interrupt_head desc.now smask cmask link dummy }
    ensures range { IsQhInRange result }
{
    Qh {
        link: LinkBits::from_word(link),
        rl: 0,
        smask,
        cmask,
        mult: desc.multi,
        ..new_queue_head(desc, 0, dummy)
    }
}

/// The head of the ring: halted for ever, its link at itself (EHCI 1.0, 4.8).
pub fn head_of_ring() -> Qh
    ensures head { result ≡ opening_head }
    ensures range { IsQhInRange result }
{
    Qh {
        link: link_to_queue_head(HEAD_BLOCK),
        eps: 2,
        head: true,
        max: 64,
        mult: 1,
        token: token_of_nothing(true),
        ..Qh::blank()
    }
}

/// The qTD at the end of a queue.
pub fn inactive_qtd() -> Qtd
    ensures qtd { result ≡ dummy_qtd }
    ensures range { IsQtdInRange result }
{
    Qtd::blank()
}

/// The token of a new qTD (EHCI 1.0, 3.5.3).
fn active_token(stage: &Stage, last: bool) -> Token
    requires pid { stage.now.pid ≤ 2 }
    requires long { stage.now.long ≤ longest_qtd }
    ensures token { result ≡ new_token stage.now last }
    ensures range { IsWordInRange token_rows result }
{
    Token {
        active: true,
        pid: stage.pid,
        cerr: 3,
        ioc: last,
        total: stage.long,
        toggle: stage.toggle,
        ..Token::blank()
    }
}

/// Where the alternate pointer leads.
fn alternate_to(alternate: Alternate, next: u16, dummy: u16) -> ShortLink
    ensures { result ≡ alternate_link alternate next dummy }
{
    match alternate {
        Alternate::Nowhere => ShortLink::end(),
        Alternate::Dummy => link_to_qtd(dummy),
        Alternate::Next => link_to_qtd(next),
    }
}

/// The qTD of a stage: the blocks of the qTD after it, of the new dummy, and of the runs of its buffer.
pub fn qtd_of(stage: &Stage, next: u16, dummy: u16, buffer: &[u16; 5], last: bool) -> Qtd
    requires pid { stage.now.pid ≤ 2 }
    requires long { stage.now.long ≤ longest_qtd }
    ensures qtd { result ≡ new_qtd stage.now next dummy buffer.now last }
    ensures range { IsQtdInRange result }
{
    Qtd {
        next: link_to_qtd(next),
        alternate: alternate_to(stage.alternate, next, dummy),
        token: active_token(stage, last),
        offset: 32 * (buffer[0] % 128),
        page0: buffer[0] as u32 / 128,
        page1: buffer[1] as u32 / 128,
        page2: buffer[2] as u32 / 128,
        page3: buffer[3] as u32 / 128,
        page4: buffer[4] as u32 / 128,
    }
}
