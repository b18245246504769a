//! The pipeline over a port whose device answers each IN with so many bytes, and which notes what an OUT sends.
ghost use Rattle.std.specs.Prelude.{◌≡◌, ◌≤◌, ℕ, List, length, true};
ghost use Rattle.usb_base.specs.declared.packets.Reply.{Reply as Answer};

use arrayvec::ArrayVec;
use hub_keys::Key;
use std::test::Fail;
use tt_pipeline::Pipeline;
use usb_base::{Ask, DataPart, DevAddr, EpKind, EpNum, Packet, Pid, Reply, Speed, Split, Wire};

/// A port: the bytes that its device answers, how often it was asked, and how much was sent the last time.
#[derive(Drop)]
struct Port {
    bytes: ArrayVec<u8, 1024>,
    asked: u32,
    sent: usize,
}

impl Wire for Port {
    ghost begins = { λ w frindex allowed v. (allowed ≡ true) × (v ≡ w) };

    ghost transacts = { λ w ask out reply v. v.sent ≡ length out };

    fn begin(&mut self, _frindex: u16) -> bool {
        true
    }

    fn transact(&mut self, ask: &Ask, out: &[u8], reply: &mut Reply) {
        self.asked = self.asked.saturating_add(1);
        self.sent = out.len();
        *reply = match ask.pid {
            Pid::In => Reply::Bytes(Pid::Data0, Packet::copy_of(self.bytes.as_slice())),
            _ => Reply::Silent,
        };
    }
}

fn port_of(bytes: &[u8]) -> Port
    requires { length bytes.now ≤ 1024 }
{
    let mut all = ArrayVec::new();
    for byte in bytes {
        if !all.is_full() {
            all.push(*byte);
        }
    }
    Port {
        bytes: all,
        asked: 0,
        sent: 0,
    }
}

fn start_of(kind: EpKind, pid: Pid, part: DataPart, ep: u8, limit: u16) -> Ask
    requires { ep ≤ 15 }
{
    Ask {
        split: Split::Start {
            hub: DevAddr::new(9).unwrap(),
            port: 2,
            part,
        },
        pid,
        addr: DevAddr::new(3).unwrap(),
        ep: EpNum::new(ep).unwrap(),
        speed: Speed::Full,
        kind,
        toggle: Pid::Data0,
        limit,
    }
}

/// The PID of a reply and the number of its bytes; nothing for silence.
fn told(reply: Reply) -> Option<(Pid, usize)> {
    match reply {
        Reply::Silent => None,
        Reply::Bytes(pid, bytes) => Some((pid, bytes.as_slice().len())),
        Reply::Hand(pid) => Some((pid, 0)),
    }
}

/// What a complete-split of this start gets.
fn asked(pipeline: &mut Pipeline, start: &Ask) -> Option<(Pid, usize)> {
    told(pipeline.complete(&Key::of(start)))
}

/// Starts two interrupts of 64 bytes and one of 8, which is told.
fn three_started(pipeline: &mut Pipeline, stuff: u8) -> Ask {
    let first = start_of(EpKind::Interrupt, Pid::In, DataPart::All, 1, 64);
    let second = start_of(EpKind::Interrupt, Pid::In, DataPart::All, 2, 64);
    let third = start_of(EpKind::Interrupt, Pid::In, DataPart::All, 3, 8);
    for start in [&first, &second, &third] {
        pipeline.start(start, &[], stuff);
    }
    third
}

// Two interrupts of 64 bytes and one of 8, started in microframe 0: nothing is worked at the begin of microframe 1, all of
// them at that of 2, in 175 byte-times; the results stay until the begin of the next frame.
#[test]
fn three_interrupts(rt: HostRuntime) -> Result<(), Fail> {
    let mut pipeline = Pipeline::build(rt.alloc())?;
    let mut port = port_of(&[7, 8]);
    let third = three_started(&mut pipeline, 0);
    for (microframe, worked, reply, count) in [
        (1, 0, (Pid::Nyet, 0), 0),
        (2, 175, (Pid::Data0, 2), 3),
        (8, 0, (Pid::Nyet, 0), 3),
    ] {
        assert_eq!(rt;
            (pipeline.microframe(microframe, &mut port), port.asked),
            (worked, count)
        );
        let replies = [asked(&mut pipeline, &third), asked(&mut pipeline, &third)];
        assert_eq!(rt; replies, [Some(reply); 2]);
    }
    Ok(())
}

// An isochronous IN of 300 bytes comes in parts of 179 and 121.
#[test]
fn isochronous_in(rt: HostRuntime) -> Result<(), Fail> {
    let mut pipeline = Pipeline::build(rt.alloc())?;
    let mut port = port_of(&[5; 300]);
    let ask = start_of(EpKind::Iso, Pid::In, DataPart::All, 1, 300);
    pipeline.start(&ask, &[], 0);
    assert_eq!(rt; pipeline.microframe(1, &mut port), 0);
    for (microframe, worked, reply) in [(2, 188, (Pid::Mdata, 179)), (3, 121, (Pid::Data0, 121))] {
        assert_eq!(rt; pipeline.microframe(microframe, &mut port), worked);
        let replies = [asked(&mut pipeline, &ask), asked(&mut pipeline, &ask)];
        assert_eq!(rt; replies, [Some(reply), Some((Pid::Nyet, 0))]);
    }
    assert_eq!(rt; port.asked, 1);
    Ok(())
}

// An isochronous OUT in three parts, of which the middle one is lost: 212 bytes go out once its last byte-time is worked.
#[test]
fn isochronous_out(rt: HostRuntime) -> Result<(), Fail> {
    let mut pipeline = Pipeline::build(rt.alloc())?;
    let mut port = port_of(&[]);
    let begin = start_of(EpKind::Iso, Pid::Out, DataPart::Begin, 1, 0);
    let end = start_of(EpKind::Iso, Pid::Out, DataPart::End, 1, 0);
    pipeline.start(&begin, &[1; 188], 0);
    let first = [
        pipeline.microframe(1, &mut port),
        pipeline.microframe(2, &mut port),
    ];
    pipeline.start(&end, &[2; 24], 0);
    let third = (pipeline.microframe(3, &mut port), port.asked);
    let fourth = pipeline.microframe(4, &mut port);
    assert_eq!(rt; (first, third, fourth), ([0, 188], (0, 0), 33));
    assert_eq!(rt; (port.asked, port.sent), (1, 212));
    Ok(())
}

// The same three interrupts, whose packets stuffed bits make longer by 6 bytes in 36: 89, 89 and 24 byte-times. 188 are worked at
// the begin of microframe 2, and the last 14 at that of 3.
#[test]
fn stuffed_interrupts(rt: HostRuntime) -> Result<(), Fail> {
    let mut pipeline = Pipeline::build(rt.alloc())?;
    let mut port = port_of(&[7, 8]);
    let third = three_started(&mut pipeline, 6);
    for (microframe, worked, reply) in [
        (1, 0, (Pid::Nyet, 0)),
        (2, 188, (Pid::Nyet, 0)),
        (3, 14, (Pid::Data0, 2)),
    ] {
        assert_eq!(rt; pipeline.microframe(microframe, &mut port), worked);
        assert_eq!(rt; asked(&mut pipeline, &third), Some(reply));
    }
    Ok(())
}
