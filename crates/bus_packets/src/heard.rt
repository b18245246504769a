//! Which packets of a transaction were sent, and which of them the host heard.
ghost use Rattle.std.specs.Prelude.{◌≡◌};
ghost use Rattle.bus_packets.specs.Heard.{sends_data, has_answer, is_heard, is_acknowledged};

use bus_wire::WhoHeard;
use usb_base::{Ask, Pid, Split};

/// Whether the host sends data right behind the token.
pub fn sends_data(ask: &Ask) -> bool
    ensures { result ≡ sends_data ask.now.split ask.now.pid }
{
    match (ask.split, ask.pid) {
        (Split::Complete { .. }, _) => false,
        (Split::Plain | Split::Start { .. }, Pid::Out | Pid::Setup) => true,
        (Split::Plain | Split::Start { .. }, _) => false,
    }
}

/// Whether a packet came in answer.
pub fn has_answer(row: WhoHeard) -> bool
    ensures { result ≡ has_answer row }
{
    match row {
        WhoHeard::SentUnheard | WhoHeard::NoAnswer => false,
        WhoHeard::AnswerUnheard
        | WhoHeard::AnswerHeard
        | WhoHeard::AckUnheard
        | WhoHeard::AckHeard => true,
    }
}

/// Whether the host heard the answer.
pub fn is_heard(row: WhoHeard) -> bool
    ensures { result ≡ is_heard row }
{
    match row {
        WhoHeard::SentUnheard | WhoHeard::NoAnswer | WhoHeard::AnswerUnheard => false,
        WhoHeard::AnswerHeard | WhoHeard::AckUnheard | WhoHeard::AckHeard => true,
    }
}

/// Whether the host sent an acknowledgement.
pub fn is_acknowledged(row: WhoHeard) -> bool
    ensures { result ≡ is_acknowledged row }
{
    match row {
        WhoHeard::AckUnheard | WhoHeard::AckHeard => true,
        WhoHeard::SentUnheard
        | WhoHeard::NoAnswer
        | WhoHeard::AnswerUnheard
        | WhoHeard::AnswerHeard => false,
    }
}
