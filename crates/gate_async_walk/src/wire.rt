ghost use Rattle.std.specs.Prelude.{◌≡◌, ◌≤◌, true};

use usb_base::{Ask, Packet, Pid, Reply, Split, Wire};

/// An answer of the wire.
#[derive(Clone, Copy)]
pub(crate) enum Answer {
    Ack,
    Nak,
    Nyet,
    Stall,
    Silent,
    /// Data with the PID that the host expects, of this many bytes, at most 64.
    Data(u8),
}

/// What was asked, and what came.
#[derive(Clone, Copy)]
pub(crate) struct Asked {
    pub(crate) split: Split,
    pub(crate) pid: Pid,
    pub(crate) toggle: Pid,
    pub(crate) bytes: usize,
    /// The first byte that was sent, and 0 where none was.
    pub(crate) first: u8,
    pub(crate) answer: Answer,
}

/// A wire that gives the answers of a list, and is silent after them; it keeps what was asked.
#[derive(Drop)]
pub(crate) struct ListedWire {
    pub(crate) answers: &'static [Answer],
    pub(crate) asked: Vec<Asked>,
}

/// The packet with this many bytes, at most 64: 80, 81 and so on.
fn packet(bytes: u8) -> Packet {
    let mut data = [0u8; 64];
    for (place, byte) in data.iter_mut().enumerate() {
        *byte = 80 + place as u8;
    }
    Packet::copy_of(&data[..usize::min(64, bytes as usize)])
}

fn reply(answer: Answer, toggle: Pid) -> Reply {
    match answer {
        Answer::Ack => Reply::Hand(Pid::Ack),
        Answer::Nak => Reply::Hand(Pid::Nak),
        Answer::Nyet => Reply::Hand(Pid::Nyet),
        Answer::Stall => Reply::Hand(Pid::Stall),
        Answer::Silent => Reply::Silent,
        Answer::Data(bytes) => Reply::Bytes(toggle, packet(bytes)),
    }
}

impl Wire for ListedWire {
    ghost begins = { λ w frindex allowed v. (allowed ≡ true) × (v ≡ w) };

    ghost transacts = { λ w ask out reply v. v.answers ≡ w.answers };

    fn begin(&mut self, _frindex: u16) -> bool {
        true
    }

    fn transact(&mut self, ask: &Ask, out: &[u8], heard: &mut Reply) {
        let answer = self
            .answers
            .get(self.asked.len())
            .copied()
            .unwrap_or(Answer::Silent);
        // Where there is no memory for it, the row tells one ask less.
        self.asked
            .push(Asked {
                split: ask.split,
                pid: ask.pid,
                toggle: ask.toggle,
                bytes: out.len(),
                first: out.first().copied().unwrap_or(0),
                answer,
            })
            .ok();
        *heard = reply(answer, ask.toggle);
    }
}
