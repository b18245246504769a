ghost use Rattle.std.specs.Prelude.{true, false, ◌≡◌, ◌≢◌, ℕ, ◌≤◌, ◌-◌, ◌==◌, ◌&&◌, nat_le, not, min, length};
ghost use Rattle.toggle_error.specs.Columns.{expected_pid, limit_of, token_of, heard_of, heard_data, heard_hand, fitting};
ghost use Rattle.toggle_error.specs.PlainRows.{plain_row, is_last_error, erred, error_outcome, moved_in, moved_out, plain_outcome, after_plain};
ghost use Rattle.toggle_error.specs.SplitRows.{start_row, start_outcome, after_start, answered, complete_row, complete_outcome, after_complete};
ghost use Rattle.toggle_error.specs.Settle.{outcome_of, settled};

use crate::host::{HostSide, Outcome};
use crate::rows::{AskToken, CompleteRow, Heard, PlainRow, StartRow};
use usb_base::{Ask, EndCause, EpKind, Pid, Reply, Speed, Split};

/// The token of an ask.
fn token(ask: &Ask) -> AskToken
    ensures { result ≡ token_of ask.now }
{
    match ask.pid {
        Pid::In => AskToken::In,
        Pid::Out => match (ask.speed, ask.kind) {
            // The ping state is kept for these alone (EHCI 1.0, 4.11; USB 2.0, 8.5.1).
            (Speed::High, EpKind::Bulk | EpKind::Control) => AskToken::PingedOut,
            _ => AskToken::Out,
        },
        Pid::Setup => AskToken::Setup,
        Pid::Ping => AskToken::Ping,
        _ => AskToken::Unknown,
    }
}

/// What a handshake is to the host.
fn handshake(pid: Pid) -> Heard
    ensures { result ≡ heard_hand pid }
{
    match pid {
        Pid::Ack => Heard::Ack,
        Pid::Nak => Heard::Nak,
        Pid::Nyet => Heard::Nyet,
        Pid::Stall => Heard::Stall,
        Pid::Err => Heard::Err,
        _ => Heard::Nothing,
    }
}

/// The row of a plain ask that sent this number of bytes.
#[inline(always)]
fn plain(token: AskToken, heard: Heard, sent: u16) -> PlainRow
    ensures { result ≡ plain_row token heard sent }
{
    match (token, heard) {
        // Data of the expected toggle are new (USB 2.0, 8.6.2).
        (AskToken::In, Heard::Fitting(n)) => PlainRow::Received(n),
        // The acknowledgement before was lost: the packet is acknowledged and dropped (USB 2.0, 8.6.4).
        (AskToken::In, Heard::Repeat) => PlainRow::Repeated,
        // More bytes than the host can take are a babble (EHCI 1.0, 4.15.1.1.2).
        (AskToken::In, Heard::TooLong) => PlainRow::Babbled,
        // ACK alone moves an OUT on (USB 2.0, 8.6.2).
        (AskToken::Out | AskToken::PingedOut | AskToken::Setup, Heard::Ack) => PlainRow::Sent(sent),
        // NYET took the packet, and has no room for the next (EHCI 1.0, 4.11; USB 2.0, 8.5.1).
        (AskToken::PingedOut, Heard::Nyet) => PlainRow::SentLast(sent),
        // NAK is no error: CERR stays (EHCI 1.0, 3.5.3).
        (AskToken::In | AskToken::Out, Heard::Nak) => PlainRow::Refused,
        // After a NAK the host asks for room first (EHCI 1.0, 4.11).
        (AskToken::PingedOut, Heard::Nak) => PlainRow::RefusedPinged,
        // ACK to a PING tells room for one packet, and moves nothing (USB 2.0, 8.5.1).
        (AskToken::Ping, Heard::Ack) => PlainRow::Room,
        // No room yet: PING again (EHCI 1.0, 4.11).
        (AskToken::Ping, Heard::Nak) => PlainRow::NoRoom,
        // A STALL halts at once, whatever CERR (EHCI 1.0, 4.10.3).
        (_, Heard::Stall) => PlainRow::Stalled,
        // What became of the packet isn't known, so the host asks for room first (EHCI 1.0, 4.11).
        (AskToken::PingedOut | AskToken::Ping, _) => PlainRow::FailedPinged,
        // Silence or anything else is a transaction error, which CERR counts (EHCI 1.0, 4.15.1.1).
        _ => PlainRow::Failed,
    }
}

/// The row of a start-split.
fn start(kind: EpKind, heard: Heard) -> StartRow
    ensures { result ≡ start_row kind heard }
{
    match (kind, heard) {
        // A translator answers no interrupt's start-split (EHCI 1.0, 4.12.2.4.1).
        (EpKind::Interrupt, _) => StartRow::Begun,
        // The translator has it: complete-splits follow (EHCI 1.0, 4.12.1.1).
        (_, Heard::Ack) => StartRow::Accepted,
        // Its buffers are full: the same start-split again, and no error (EHCI 1.0, 4.12.1.1).
        (_, Heard::Nak) => StartRow::Declined,
        // A transaction error: the same start-split again (EHCI 1.0, 4.12.1.1).
        _ => StartRow::Unheard,
    }
}

/// The row of a complete-split, from that of the plain ask.
fn complete(kind: EpKind, last: bool, heard: Heard, plain: PlainRow) -> CompleteRow
    ensures { result ≡ complete_row kind last heard plain }
{
    match (kind, heard) {
        // The last microframe, and no answer: the translator didn't run it, or lost it (EHCI 1.0, 4.12.2.4.2).
        (EpKind::Interrupt, Heard::Nyet) if last => CompleteRow::NeverCame,
        // The translator has no answer yet (EHCI 1.0, 4.12.1.2 and 4.12.2.4.2).
        (_, Heard::Nyet) => CompleteRow::Pending,
        // ERR: the transaction below the translator failed (EHCI 1.0, 4.12.2.4.2).
        (EpKind::Interrupt, Heard::Err) => CompleteRow::BrokeBelow,
        _ => match plain {
            // A failure on the host's bus: the result still waits in the translator (EHCI 1.0, 4.12.1.2).
            PlainRow::Failed | PlainRow::FailedPinged => CompleteRow::Unanswered,
            // The endpoint's own answer, as of a plain transaction (EHCI 1.0, 4.12.1.2).
            row => CompleteRow::Answered(row),
        },
    }
}

impl HostSide {
    /// The data PID that the host sends or expects (USB 2.0, 8.6).
    pub fn expected(&self) -> Pid
        ensures { result ≡ expected_pid self.now.toggle }
    {
        if self.toggle { Pid::Data1 } else { Pid::Data0 }
    }

    /// The most bytes that the host can take in one packet: the lesser of `max` and `left`.
    pub fn limit(&self) -> u16
        ensures { result ≡ limit_of self.now }
    {
        u16::min(self.max, self.left)
    }

    /// Settles the reply to an ask that sent `sent` bytes: the outcome and the new fields are those of the row of
    /// the settle table that fits. `last` tells that a complete-split has the highest bit of its C-mask.
    #[inline(always)]
    pub fn settle(&mut self, ask: &Ask, sent: u16, last: bool, reply: &Reply) -> Outcome
        requires kind { ask.now.kind ≢ EpKind.Iso }
        requires sent { sent ≤ self.old.left }
        ensures outcome { result ≡ outcome_of ask.now sent last reply.now self.old }
        ensures after { self.new ≡ settled ask.now sent last reply.now self.old }
        ensures kept { (self.new.max ≡ self.old.max) × (self.new.left ≤ self.old.left) }
    {
        let heard = self.heard(reply);
        let row = plain(token(ask), heard, sent);
        match ask.split {
            Split::Plain => self.settle_plain(row),
            Split::Start { .. } => self.settle_start(start(ask.kind, heard)),
            Split::Complete { .. } => self.settle_complete(complete(ask.kind, last, heard, row)),
        }
    }

    fn data(&self, pid: Pid, bytes: u16) -> Heard
        ensures { result ≡ heard_data self.now.toggle pid (fitting bytes (limit_of self.now)) }
    {
        match (self.toggle, pid) {
            (false, Pid::Data0) | (true, Pid::Data1) => {
                if bytes <= self.limit() {
                    Heard::Fitting(bytes)
                } else {
                    Heard::TooLong
                }
            }
            (false, Pid::Data1) | (true, Pid::Data0) => Heard::Repeat,
            _ => Heard::Nothing,
        }
    }

    fn heard(&self, reply: &Reply) -> Heard
        ensures { result ≡ heard_of self.now reply.now }
    {
        match reply {
            Reply::Silent => Heard::Nothing,
            Reply::Bytes(pid, bytes) => self.data(*pid, bytes.as_slice().len() as u16),
            Reply::Hand(pid) => handshake(*pid),
        }
    }

    fn receive(&mut self, n: u16) -> Outcome
        ensures outcome { result ≡ Outcome.Moved n }
        ensures after { self.new ≡ moved_in n self.old }
        ensures kept { (self.new.max ≡ self.old.max) × (self.new.left ≤ self.old.left) }
    {
        self.toggle = !self.toggle;
        self.left = self.left.saturating_sub(n);
        self.active = self.max <= n && self.left != 0 && self.active;
        Outcome::Moved(n)
    }

    fn send(&mut self, n: u16, ping: bool) -> Outcome
        ensures outcome { result ≡ Outcome.Moved n }
        ensures after { self.new ≡ moved_out n ping self.old }
        ensures kept { (self.new.max ≡ self.old.max) × (self.new.left ≤ self.old.left) }
    {
        self.toggle = !self.toggle;
        self.left = self.left.saturating_sub(n);
        self.ping = ping;
        self.active = self.left != 0 && self.active;
        Outcome::Moved(n)
    }

    fn err(&mut self) -> Outcome
        ensures outcome { result ≡ error_outcome self.old }
        ensures after { self.new ≡ erred self.old }
        ensures kept { (self.new.max ≡ self.old.max) × (self.new.left ≤ self.old.left) }
    {
        self.xact_err = true;
        if self.cerr == 1 {
            self.cerr = 0;
            self.halted = true;
            self.active = false;
            return Outcome::Halt(EndCause::Error);
        }
        self.cerr = self.cerr.saturating_sub(1);
        Outcome::Error
    }

    fn halt(&mut self, cause: EndCause) -> Outcome
        ensures outcome { result ≡ Outcome.Halt cause }
        ensures after { self.new ≡ record self.old { halted = true; active = false } }
        ensures kept { (self.new.max ≡ self.old.max) × (self.new.left ≤ self.old.left) }
    {
        self.halted = true;
        self.active = false;
        Outcome::Halt(cause)
    }

    fn settle_plain(&mut self, row: PlainRow) -> Outcome
        ensures outcome { result ≡ plain_outcome row self.old }
        ensures after { self.new ≡ after_plain row self.old }
        ensures kept { (self.new.max ≡ self.old.max) × (self.new.left ≤ self.old.left) }
    {
        match row {
            PlainRow::Received(n) => self.receive(n),
            PlainRow::Repeated => Outcome::Discarded,
            PlainRow::Babbled => {
                self.babble = true;
                self.halt(EndCause::Babble)
            }
            PlainRow::Sent(n) => self.send(n, false),
            PlainRow::SentLast(n) => self.send(n, true),
            PlainRow::Refused => Outcome::Nak,
            PlainRow::RefusedPinged => {
                self.ping = true;
                Outcome::Nak
            }
            PlainRow::Room => {
                self.ping = false;
                Outcome::Wait
            }
            PlainRow::NoRoom => Outcome::Nak,
            PlainRow::Stalled => self.halt(EndCause::Stall),
            PlainRow::Failed => self.err(),
            PlainRow::FailedPinged => {
                self.ping = true;
                self.err()
            }
        }
    }

    fn settle_start(&mut self, row: StartRow) -> Outcome
        ensures outcome { result ≡ start_outcome row self.old }
        ensures after { self.new ≡ after_start row self.old }
        ensures kept { (self.new.max ≡ self.old.max) × (self.new.left ≤ self.old.left) }
    {
        match row {
            StartRow::Accepted | StartRow::Begun => {
                self.waiting = true;
                Outcome::Wait
            }
            StartRow::Declined => Outcome::Nak,
            StartRow::Unheard => self.err(),
        }
    }

    fn settle_complete(&mut self, row: CompleteRow) -> Outcome
        ensures outcome { result ≡ complete_outcome row self.old }
        ensures after { self.new ≡ after_complete row self.old }
        ensures kept { (self.new.max ≡ self.old.max) × (self.new.left ≤ self.old.left) }
    {
        match row {
            CompleteRow::Pending => Outcome::Wait,
            CompleteRow::NeverCame | CompleteRow::BrokeBelow => {
                self.waiting = false;
                self.err()
            }
            CompleteRow::Answered(row) => {
                self.waiting = false;
                self.settle_plain(row)
            }
            CompleteRow::Unanswered => self.err(),
        }
    }
}
