ghost use Rattle.std.specs.Prelude.{◌≡◌, ◌≤◌, true};

use usb_base::{Ask, DataPart, Packet, Pid, Reply, Split, Wire};

/// An answer of the wire.
#[derive(Clone, Copy)]
pub(crate) enum Answer {
    Ack,
    Nyet,
    Err,
    Silent,
    /// Data with this PID, of this many bytes, at most 1,024.
    Data(Pid, u16),
}

/// What was asked, and what came.
#[derive(Clone, Copy)]
pub(crate) struct Asked {
    pub(crate) split: Split,
    pub(crate) pid: Pid,
    pub(crate) toggle: Pid,
    pub(crate) bytes: usize,
    /// The first byte that was sent, and 0 where none was.
    pub(crate) first: u8,
    pub(crate) answer: Answer,
}

/// A wire that gives the answers of a list, each once, and keeps what it was asked.
#[derive(Drop)]
pub(crate) struct ListedWire {
    pub(crate) answers: &'static [Answer],
    pub(crate) asked: Vec<Asked>,
}

/// The packet with this many bytes, at most 1,024, each of which is `fill`.
fn packet(bytes: u16, fill: u8) -> Packet {
    let data = [fill; 1024];
    Packet::copy_of(&data[..usize::min(1024, bytes as usize)])
}

fn reply(answer: Answer, fill: u8) -> Reply {
    match answer {
        Answer::Ack => Reply::Hand(Pid::Ack),
        Answer::Nyet => Reply::Hand(Pid::Nyet),
        Answer::Err => Reply::Hand(Pid::Err),
        Answer::Silent => Reply::Silent,
        Answer::Data(pid, bytes) => Reply::Bytes(pid, packet(bytes, fill)),
    }
}

/// The name of a part of an isochronous OUT.
pub(crate) fn part_name(part: DataPart) -> &'static str {
    match part {
        DataPart::All => "",
        DataPart::Begin => "begin ",
        DataPart::Middle => "middle ",
        DataPart::End => "end ",
    }
}

impl Wire for ListedWire {
    ghost begins = { λ w frindex allowed v. (allowed ≡ true) × (v ≡ w) };

    ghost transacts = { λ w ask out reply v. v.answers ≡ w.answers };

    fn begin(&mut self, _frindex: u16) -> bool {
        true
    }

    fn transact(&mut self, ask: &Ask, out: &[u8], heard: &mut Reply) {
        let number = self.asked.len();
        let answer = self.answers.get(number).copied().unwrap_or(Answer::Silent);
        // Where there is no memory for it, the row tells one ask less.
        self.asked
            .push(Asked {
                split: ask.split,
                pid: ask.pid,
                toggle: ask.toggle,
                bytes: out.len(),
                first: out.first().copied().unwrap_or(0),
                answer,
            })
            .ok();
        *heard = reply(answer, 0xA0 + (number % 16) as u8);
    }
}
