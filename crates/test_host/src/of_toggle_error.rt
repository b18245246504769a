//! Whole transfers, which no clause of one transaction tells: 1,000 bytes in packets of 512, and three errors.
ghost use Rattle.std.specs.Prelude.{◌≡◌, ◌≤◌};

use toggle_error::{HostSide, Outcome};
use usb_base::{Ask, DevAddr, EndCause, EpKind, EpNum, Packet, Pid, Reply, Speed, Split};

fn fresh() -> HostSide {
    HostSide {
        toggle: false,
        ping: false,
        cerr: 3,
        left: 1_000,
        max: 512,
        active: true,
        halted: false,
        babble: false,
        xact_err: false,
        missed: false,
        waiting: false,
    }
}

fn bulk_in() -> Ask
    ensures { result.kind ≡ EpKind.Bulk }
{
    Ask {
        split: Split::Plain,
        pid: Pid::In,
        addr: DevAddr::new(3).unwrap(),
        ep: EpNum::new(1).unwrap(),
        speed: Speed::High,
        kind: EpKind::Bulk,
        toggle: Pid::Data0,
        limit: 512,
    }
}

fn data(pid: Pid, n: usize) -> Reply
    requires { n ≤ 512 }
{
    let bytes = [7; 512];
    Reply::Bytes(pid, Packet::copy_of(&bytes[..n]))
}

#[test]
fn a_transfer_of_two_packets_and_a_repeat(rt: HostRuntime) {
    let mut host = fresh();
    let ask = bulk_in();
    // (the packet, what becomes of it, and then what is left and which toggle is expected)
    for (pid, n, outcome, left, expected) in [
        (Pid::Data0, 512, Outcome::Moved(512), 488, Pid::Data1),
        (Pid::Data0, 512, Outcome::Discarded, 488, Pid::Data1),
        (Pid::Data1, 488, Outcome::Moved(488), 0, Pid::Data0),
    ] {
        assert!(rt; n <= 512);
        let settled = host.settle(&ask, 0, false, &data(pid, n));
        assert_eq!(rt;
            (settled, host.left, host.limit(), host.expected()),
            (outcome, left, left, expected)
        );
    }
    assert_eq!(rt; (host.active, host.halted, host.cerr), (false, false, 3));
}

#[test]
fn the_third_error_halts(rt: HostRuntime) {
    let mut host = fresh();
    let ask = bulk_in();
    for (is_data, outcome) in [
        (false, Outcome::Error),
        (false, Outcome::Error),
        (true, Outcome::Moved(512)),
        (false, Outcome::Halt(EndCause::Error)),
    ] {
        let reply = if is_data {
            data(Pid::Data0, 512)
        } else {
            Reply::Silent
        };
        assert_eq!(rt; host.settle(&ask, 0, false, &reply), outcome);
    }
    assert_eq!(rt;
        (host.left, host.active, host.halted, host.cerr),
        (488, false, true, 0)
    );
}
