ghost use Rattle.std.specs.Prelude.{◌≡◌};
ghost use Rattle.tt_bulk.specs.Answers.{result_of, reply_of};

use usb_base::{Packet, Pid, Reply};

/// The result of a transaction below: the device's data, or its handshake.
#[derive(Debug, Drop)]
pub enum Answer {
    /// A data packet with its PID.
    Bytes(Pid, Packet),
    Ack,
    Nak,
    Stall,
}

/// What a translator hears in a reply; `None` for silence, and for a handshake that no full- or low-speed device gives.
pub fn result(reply: Reply) -> Option<Answer>
    ensures { result ≡ result_of reply }
{
    match reply {
        Reply::Bytes(pid, bytes) => Some(Answer::Bytes(pid, bytes)),
        Reply::Hand(Pid::Ack) => Some(Answer::Ack),
        Reply::Hand(Pid::Nak) => Some(Answer::Nak),
        Reply::Hand(Pid::Stall) => Some(Answer::Stall),
        _ => None,
    }
}

/// The reply to a complete-split that has this result.
pub fn reply(answer: &Answer) -> Reply
    ensures { result ≡ reply_of answer.now }
{
    match answer {
        Answer::Bytes(pid, bytes) => Reply::Bytes(*pid, Packet::copy_of(bytes.as_slice())),
        Answer::Ack => Reply::Hand(Pid::Ack),
        Answer::Nak => Reply::Hand(Pid::Nak),
        Answer::Stall => Reply::Hand(Pid::Stall),
    }
}
