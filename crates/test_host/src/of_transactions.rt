//! The runs over a wire that counts, and over one that gives the replies of a script.
ghost use Rattle.std.specs.Prelude.{◌≡◌, ◌≢◌, ◌≤◌, ◌<◌, ◌+◌, ◌^◌, ◌++◌, ◌∷◌, [], min, IsTrue, true};
ghost use Rattle.usb_base.specs.declared.packets.Reply.{Reply as Answer};

use std::test::Fail;
use toggle_error::{HostSide, Outcome};
use transactions::{
    IsoResult, Pipe, Result3, run_high, run_iso, run_split_complete, run_split_start,
};
use usb_base::{
    Ask, DataPart, DevAddr, EndCause, EpKind, EpNum, Packet, Pid, Ps, Reply, Speed, Split, Wire,
};

/// A wire that never answers, and counts what it is asked.
#[derive(Drop)]
struct CountingWire {
    asked: u32,
    sent: usize,
    pid: Pid,
}

impl Wire for CountingWire {
    ghost begins = { λ w frindex allowed v. (allowed ≡ true) × (v ≡ w) };

    ghost transacts = { λ w ask out reply v. (reply ≡ Answer.Silent) × (v.asked ≡ min (w.asked + 1) 4294967295) };

    fn begin(&mut self, _frindex: u16) -> bool {
        true
    }

    fn transact(&mut self, ask: &Ask, out: &[u8], reply: &mut Reply) {
        self.asked = self.asked.saturating_add(1);
        self.sent = out.len();
        self.pid = ask.pid;
        *reply = Reply::Silent;
    }
}

/// A wire that gives the replies of a script, the last of the list first, and then is silent.
#[derive(Drop)]
struct ScriptedWire {
    replies: Vec<Reply>,
}

impl Wire for ScriptedWire {
    ghost begins = { λ w frindex allowed v. (allowed ≡ true) × (v ≡ w) };

    ghost transacts = { λ w ask out reply v. (w.replies.items ≡ [] → reply ≡ Answer.Silent) × (w.replies.items ≢ [] → w.replies.items ≡ v.replies.items ++ reply ∷ []) };

    fn begin(&mut self, _frindex: u16) -> bool {
        true
    }

    fn transact(&mut self, _ask: &Ask, _out: &[u8], reply: &mut Reply) {
        *reply = match self.replies.pop() {
            Some(next) => next,
            None => Reply::Silent,
        };
    }
}

fn host_of(max: u16, left: u16) -> HostSide
    ensures { (result.max ≡ max) × (result.left ≡ left) }
{
    HostSide {
        toggle: false,
        ping: false,
        cerr: 3,
        left,
        max,
        active: true,
        halted: false,
        babble: false,
        xact_err: false,
        missed: false,
        waiting: false,
    }
}

fn pipe_of(pid: Pid, speed: Speed, kind: EpKind) -> Pipe
    ensures { result.kind ≡ kind }
{
    Pipe {
        addr: DevAddr::new(3).unwrap(),
        ep: EpNum::new(1).unwrap(),
        speed,
        kind,
        pid,
        hub: DevAddr::new(9).unwrap(),
        port: 2,
        part: DataPart::All,
    }
}

fn data(pid: Pid, bytes: &[u8; 8]) -> Reply {
    Reply::Bytes(pid, Packet::copy_of(bytes))
}

fn counting() -> CountingWire {
    CountingWire {
        asked: 0,
        sent: 0,
        pid: Pid::Sof,
    }
}

#[test]
fn a_pinged_out_asks_once(rt: HostRuntime) {
    let mut wire = counting();
    let mut host = host_of(512, 1_000);
    let out = pipe_of(Pid::Out, Speed::High, EpKind::Bulk);
    let result = run_high(&mut wire, &out, &mut host, &[7; 8]);
    assert_eq!(rt; (wire.asked, wire.sent, wire.pid), (1, 8, Pid::Out));
    assert_eq!(rt;
        (result.outcome, result.spent),
        (Outcome::Error, Ps(1_081_911))
    );
    let result = run_high(&mut wire, &out, &mut host, &[7; 8]);
    assert_eq!(rt; (wire.asked, wire.sent, wire.pid), (2, 0, Pid::Ping));
    assert_eq!(rt;
        (result.outcome, result.spent),
        (Outcome::Error, Ps(927_769))
    );
}

#[test]
fn each_half_of_a_split_asks_once(rt: HostRuntime) {
    let mut wire = counting();
    let mut host = host_of(64, 8);
    let out = pipe_of(Pid::Out, Speed::Full, EpKind::Bulk);
    let result = run_split_start(&mut wire, &out, &mut host, &[7; 8]);
    assert_eq!(rt;
        (wire.asked, wire.sent, result.spent),
        (1, 8, Ps(1_081_911))
    );
    let result = run_split_complete(&mut wire, &out, &mut host, true);
    assert_eq!(rt; (wire.asked, wire.sent, result.spent), (2, 0, Ps(927_769)));
    assert_eq!(rt; (result.outcome, host.cerr), (Outcome::Error, 1));
}

#[test]
fn an_isochronous_out_asks_once(rt: HostRuntime) {
    let mut wire = counting();
    let host = host_of(512, 1_000);
    let out = pipe_of(Pid::Out, Speed::High, EpKind::Iso);
    let result = run_iso(&mut wire, &Split::Plain, &out, &host, Pid::Data0, &[7; 8]);
    assert_eq!(rt; (wire.asked, wire.sent, wire.pid), (1, 8, Pid::Out));
    assert_eq!(rt; result.spent, Ps(798_623));
}

#[test]
fn an_in_over_a_script(rt: HostRuntime) -> Result<(), Fail> {
    let replies = vec![in rt.alloc();
        Reply::Hand(Pid::Nak),
        data(Pid::Data0, &[0; 8]),
        data(Pid::Data0, &[1, 2, 3, 4, 5, 6, 7, 8]),
    ]?;
    let mut wire = ScriptedWire { replies };
    let mut host = host_of(8, 20);
    let rows: [(Outcome, &[u8]); 4] = [
        (Outcome::Moved(8), &[1, 2, 3, 4, 5, 6, 7, 8]),
        (Outcome::Discarded, &[]),
        (Outcome::Nak, &[]),
        (Outcome::Error, &[]),
    ];
    for (outcome, got) in rows {
        assert!(rt; host.max == 8);
        let pipe = pipe_of(Pid::In, Speed::High, EpKind::Bulk);
        let result = run_high(&mut wire, &pipe, &mut host, &[]);
        assert_eq!(rt;
            (result.outcome, result.spent, result.got.as_slice()),
            (outcome, Ps(1_081_911), got)
        );
    }
    assert_eq!(rt; (host.left, host.toggle, host.cerr), (12, true, 2));
    Ok(())
}

#[test]
fn a_split_interrupt_in_over_a_script(rt: HostRuntime) -> Result<(), Fail> {
    let replies = vec![in rt.alloc();
        data(Pid::Data0, &[1, 2, 3, 4, 5, 6, 7, 8]),
        Reply::Hand(Pid::Nyet),
        Reply::Silent,
    ]?;
    let mut wire = ScriptedWire { replies };
    let mut host = host_of(8, 8);
    let pipe = pipe_of(Pid::In, Speed::Low, EpKind::Interrupt);

    let start = run_split_start(&mut wire, &pipe, &mut host, &[]);
    let first = run_split_complete(&mut wire, &pipe, &mut host, false);
    assert_eq!(rt;
        ([start.outcome, first.outcome], host.waiting),
        ([Outcome::Wait; 2], true)
    );
    let last = run_split_complete(&mut wire, &pipe, &mut host, true);
    assert_eq!(rt;
        (last.outcome, last.got.as_slice()),
        (Outcome::Moved(8), [1, 2, 3, 4, 5, 6, 7, 8].as_slice())
    );
    assert_eq!(rt; (host.waiting, host.active, host.left), (false, false, 0));
    Ok(())
}
