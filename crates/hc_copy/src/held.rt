use link_words::QtdLink;
use qh_qtd::Qh;
use toggle_error::{HostSide, Outcome};
use transactions::Pipe;
use usb_base::{Ps, Split};

/// The copy of a queue head in hand (EHCI 1.0, 4.10.1).
#[derive(Clone, Copy, Debug, PartialEq, Eq)]
pub struct Held {
    /// Where the queue head stands: a byte address, a multiple of 32.
    pub at: u32,
    /// The copy. The words may differ: a reload of its count of NAKs and what its transaction changed aren't written yet.
    pub queue_head: Qh,
    /// What its transaction came to, once it was made; the write-back comes next.
    pub settled: Option<Outcome>,
}

/// What there is to do at a queue head (4.10).
#[derive(Clone, Copy, Debug, PartialEq, Eq)]
pub enum Visit {
    /// Nothing: it is halted, or it may not work now.
    Rest,
    /// A transaction for its overlay.
    Work,
    /// Its overlay is done: the qTD that this link leads to is taken.
    Take(QtdLink),
}

/// The transaction that comes next for a queue head.
#[derive(Clone, Copy, Debug, PartialEq, Eq)]
pub struct Transaction {
    /// Plain at high speed, else the start-split or the complete-split that its split state tells (4.12).
    pub split: Split,
    /// The endpoint that it goes to.
    pub pipe: Pipe,
    /// The host's side of the transfer.
    pub host: HostSide,
    /// How many bytes of the buffer go out with it: none with an IN, a PING or a complete-split.
    pub bytes: u16,
    /// The bus time that it is priced at (USB 2.0, 5.11.3).
    pub price: Ps,
}
