ghost use Rattle.std.specs.Prelude.{◌≡◌, ◌+◌, ◌≤◌, false};
ghost use Rattle.bus_wire.specs.WhoHeard.{with_data, packets_before, is_answer, later};

use usb_base::{Ask, Pid, Reply, Split};

/// Who heard what in one transaction (USB 2.0, 8.5 and 8.6).
#[derive(Clone, Copy, Debug, PartialEq, Eq)]
pub enum WhoHeard {
    /// The token, or the data sent behind it, were unheard: nobody answers.
    SentUnheard,
    /// What was sent was heard, and nothing is answered.
    NoAnswer,
    /// The asker didn't hear the answer.
    AnswerUnheard,
    /// The asker heard the answer, and sends no acknowledgement: a handshake, data that are too long, or isochronous data.
    AnswerHeard,
    /// The asker heard the data, and its acknowledgement was unheard.
    AckUnheard,
    /// The asker heard the data, and its acknowledgement was heard.
    AckHeard,
}

impl WhoHeard {
    ghost use Rattle.bus_wire.specs.WhoHeard.{who_heard, packets_of, asker_hears};

    /// The row of a transaction whose token and sent data were heard: by whether there is an answer, whether that is unheard, whether the
    /// asker acknowledges it, and whether the acknowledgement is unheard.
    pub fn of_heard(
        answers: bool,
        answer_unheard: bool,
        acknowledged: bool,
        ack_unheard: bool,
    ) -> WhoHeard
        ensures { result ≡ who_heard false answers answer_unheard acknowledged ack_unheard }
    {
        match (answers, answer_unheard, acknowledged, ack_unheard) {
            (false, _, _, _) => WhoHeard::NoAnswer,
            (true, true, _, _) => WhoHeard::AnswerUnheard,
            (true, false, false, _) => WhoHeard::AnswerHeard,
            (true, false, true, true) => WhoHeard::AckUnheard,
            (true, false, true, false) => WhoHeard::AckHeard,
        }
    }

    /// How many packets were on the bus, where so many were sent before the answer.
    pub fn packets(self, sent: u64) -> u64
        requires { sent ≤ 2 }
        ensures { result ≡ packets_of self sent }
    {
        match self {
            WhoHeard::SentUnheard | WhoHeard::NoAnswer => sent,
            WhoHeard::AnswerUnheard | WhoHeard::AnswerHeard => sent + 1,
            WhoHeard::AckUnheard | WhoHeard::AckHeard => sent + 2,
        }
    }

    /// Leaves what the asker hears of an answer.
    pub fn let_hear(self, answer: &mut Reply)
        ensures { answer.new ≡ asker_hears self answer.old }
    {
        match self {
            WhoHeard::SentUnheard | WhoHeard::NoAnswer | WhoHeard::AnswerUnheard => {
                *answer = Reply::Silent
            }
            WhoHeard::AnswerHeard | WhoHeard::AckUnheard | WhoHeard::AckHeard => {}
        }
    }
}

/// The packets of a token, and for OUT and SETUP of the data behind it.
fn with_data(pid: Pid) -> u64
    ensures value { result ≡ with_data pid }
    ensures some { 1 ≤ result }
    ensures few { result ≤ 2 }
{
    match pid {
        Pid::Out | Pid::Setup => 2,
        _ => 1,
    }
}

/// How many packets are sent before the answer: the token, and for OUT and SETUP the data behind it, but none behind that of a
/// complete-split.
pub fn sent_before_answer(ask: &Ask) -> u64
    ensures value { result ≡ packets_before ask.now }
    ensures some { 1 ≤ result }
    ensures few { result ≤ 2 }
{
    match ask.split {
        Split::Plain | Split::Start { .. } => with_data(ask.pid),
        Split::Complete { .. } => 1,
    }
}

/// Whether a packet came in answer.
pub fn answers(reply: &Reply) -> bool
    ensures { result ≡ is_answer reply.now }
{
    match reply {
        Reply::Silent => false,
        Reply::Bytes(_, _) | Reply::Hand(_) => true,
    }
}

/// `n` steps after a number of packets or microframes, which stands at its last value.
pub fn steps_later(packet: u64, n: u64) -> u64
    ensures { result ≡ later packet n }
{
    packet.saturating_add(n)
}
