use crate::bus::{Below, Gives};
use hub_keys::Key;
use std::alloc::{AllocError, Global};
use tt_bulk::Buffers;
use usb_base::{Ask, DataPart, DevAddr, EpKind, EpNum, Pid, Reply, Speed, Split};

/// One call; the number is that of a bulk IN endpoint of device 3.
#[derive(Clone, Copy)]
pub enum Step {
    Start(u8),
    /// The work of a microframe with room for all, over a bus that gives this.
    Work(Gives),
    Complete(u8),
    Clear(u8),
    /// Both buffers are freed.
    Reset,
}

/// The start-split of a full-speed bulk IN endpoint behind port 1 of hub 9.
fn start_of(number: u8) -> Option<Ask> {
    let hub = DevAddr::new(9)?;
    let addr = DevAddr::new(3)?;
    let ep = EpNum::new(number)?;
    Some(Ask {
        split: Split::Start {
            hub,
            port: 1,
            part: DataPart::All,
        },
        pid: Pid::In,
        addr,
        ep,
        speed: Speed::Full,
        kind: EpKind::Bulk,
        toggle: Pid::Data0,
        limit: 64,
    })
}

/// Writes a reply after what is there.
fn write_reply(text: &mut String, reply: &Reply) -> Result<(), AllocError> {
    match reply {
        Reply::Silent => text.push_str("silent "),
        Reply::Hand(Pid::Ack) => text.push_str("ACK "),
        Reply::Hand(Pid::Nak) => text.push_str("NAK "),
        Reply::Hand(Pid::Nyet) => text.push_str("NYET "),
        Reply::Hand(Pid::Stall) => text.push_str("STALL "),
        Reply::Hand(_) => text.push_str("other "),
        Reply::Bytes(_, bytes) => {
            for byte in bytes.as_slice() {
                text.push(char::from(b'0' + byte / 16 % 10))?;
                text.push(char::from(b'0' + byte % 16 % 10))?;
            }
            text.push(' ')
        }
    }
}

/// Makes one call, and writes its answer where it has one.
fn make(
    buffers: &mut Buffers,
    below: &mut Below,
    step: Step,
    text: &mut String,
) -> Result<(), AllocError> {
    match step {
        Step::Start(number) => match start_of(number) {
            Some(ask) => write_reply(text, &buffers.start(&ask, &[], 0)),
            None => Ok(()),
        },
        Step::Work(gives) => {
            below.gives = gives;
            buffers.work(below, 188);
            Ok(())
        }
        Step::Complete(number) => match start_of(number) {
            Some(ask) => write_reply(text, &buffers.complete(&Key::of(&ask))),
            None => Ok(()),
        },
        Step::Clear(number) => {
            if let Some(ask) = start_of(number) {
                buffers.clear(&Key::of(&ask));
            }
            Ok(())
        }
        Step::Reset => {
            buffers.clear_all();
            Ok(())
        }
    }
}

/// Makes the calls on two free buffers: what each answered, and how often the bus below was asked.
pub fn play(alloc: Global, steps: &[Step]) -> Result<String, AllocError> {
    let mut text = String::new(alloc);
    let mut below = Below {
        gives: Gives::Silence,
        asked: 0,
    };
    if let Ok(mut buffers) = Buffers::build(alloc) {
        for step in steps {
            make(&mut buffers, &mut below, *step, &mut text)?;
        }
    }
    format!(in alloc; "{text}asked {}", below.asked)
}
