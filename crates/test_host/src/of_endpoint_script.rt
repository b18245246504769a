ghost use Rattle.std.specs.Prelude.{◌≤◌};

use endpoint_script::{Device, is_scripted};
use script_types::{DeviceText, EpText, Item};
use std::alloc::{AllocError, Global};
use std::test::Fail;
use usb_base::{
    Ask, DevAddr, EpDesc, EpKind, EpName, EpNum, ListOf, Pid, Reply, Speed, Split, Way,
};

fn text(name: EpName, kind: EpKind, room: u32, items: Vec<Item>) -> EpText {
    let desc = EpDesc {
        name,
        speed: Speed::High,
        kind,
        max: 64,
        period: 8,
        multi: 2,
        hub: None,
        port: 0,
        tt: 0,
    };
    EpText {
        desc,
        items: ListOf::of(items),
        room,
        stuff: 0,
        clears: 0,
    }
}

fn bytes(alloc: Global, bytes: &[u8]) -> Result<Item, AllocError> {
    Ok(Item::Bytes(ListOf::of(bytes.to_vec(alloc)?)))
}

fn name(num: u8, way: Way) -> EpName
    requires { num ≤ 15 }
{
    EpName {
        addr: DevAddr::new(3).unwrap(),
        num: EpNum::new(num).unwrap(),
        way,
    }
}

const SETUP: [u8; 8] = [0x80, 6, 0, 1, 0, 0, 18, 0];

fn known(alloc: Global) -> Result<Vec<Item>, AllocError> {
    let request = Item::Request {
        setup: SETUP,
        bytes: ListOf::of([18, 1].to_vec(alloc)?),
    };
    Ok(vec![in alloc; request]?)
}

fn sent(alloc: Global) -> Result<Vec<Item>, AllocError> {
    let three = bytes(alloc, &[1, 2, 3])?;
    Ok(vec![in alloc; Item::Nak(1), three, Item::Stall]?)
}

fn streamed(alloc: Global) -> Result<Vec<Item>, AllocError> {
    let first = bytes(alloc, &[0xaa, 0xbb])?;
    let second = bytes(alloc, &[0xcc, 0xdd])?;
    Ok(vec![in alloc; first, second]?)
}

/// A device with an endpoint of each kind.
fn scripted(alloc: Global) -> Result<DeviceText, AllocError> {
    let mut eps = Vec::new(alloc);
    eps.push(text(name(0, Way::Ctl), EpKind::Control, 0, known(alloc)?))?;
    eps.push(text(name(1, Way::In), EpKind::Interrupt, 0, sent(alloc)?))?;
    eps.push(text(
        name(1, Way::Out),
        EpKind::Bulk,
        4,
        vec![in alloc; Item::Nyet]?,
    ))?;
    eps.push(text(name(2, Way::In), EpKind::Iso, 0, streamed(alloc)?))?;
    Ok(DeviceText {
        addr: DevAddr::new(3).unwrap(),
        speed: Speed::High,
        eps: ListOf::of(eps),
    })
}

fn ask(to: &EpName, pid: Pid, toggle: Pid) -> Ask {
    Ask {
        split: Split::Plain,
        pid,
        addr: to.addr,
        ep: to.num,
        speed: Speed::High,
        kind: EpKind::Bulk,
        toggle,
        limit: 64,
    }
}

/// Whether it is data with these bytes, or else a handshake.
fn is_reply(reply: Reply, pid: Pid, is_data: bool, bytes: &[u8]) -> bool {
    match reply {
        Reply::Hand(given) => !is_data && given == pid,
        Reply::Bytes(given, packet) => is_data && given == pid && packet.as_slice() == bytes,
        Reply::Silent => false,
    }
}

/// Asks: the endpoint, its token, and the toggle of the data.
const GET: (u8, Way, Pid, Pid) = (1, Way::In, Pid::In, Pid::Data0);

const PUT: (u8, Way, Pid, Pid) = (1, Way::Out, Pid::Out, Pid::Data0);

const PING: (u8, Way, Pid, Pid) = (1, Way::Out, Pid::Ping, Pid::Data0);

const FRAME: (u8, Way, Pid, Pid) = (2, Way::In, Pid::In, Pid::Data0);

const BEGIN: (u8, Way, Pid, Pid) = (0, Way::Ctl, Pid::Setup, Pid::Data0);

const READ: (u8, Way, Pid, Pid) = (0, Way::Ctl, Pid::In, Pid::Data1);

const END: (u8, Way, Pid, Pid) = (0, Way::Ctl, Pid::Out, Pid::Data1);

/// An ask, the data sent with it, the answer, and whether the host acknowledges it.
type Row = (
    (u8, Way, Pid, Pid),
    &'static [u8],
    (Pid, bool),
    &'static [u8],
    bool,
);

const ROWS: &[Row] = &[
    (GET, &[], (Pid::Nak, false), &[], false),
    (GET, &[], (Pid::Data0, true), &[1, 2, 3], true),
    (GET, &[], (Pid::Stall, false), &[], false),
    (PUT, &[7, 8], (Pid::Nyet, false), &[], false),
    (PUT, &[7, 8], (Pid::Ack, false), &[], false),
    (PING, &[], (Pid::Ack, false), &[], false),
    (FRAME, &[], (Pid::Data1, true), &[0xaa, 0xbb], false),
    (FRAME, &[], (Pid::Data0, true), &[0xcc, 0xdd], false),
    (FRAME, &[], (Pid::Data0, true), &[], false),
    (BEGIN, &SETUP, (Pid::Ack, false), &[], false),
    (READ, &[], (Pid::Data1, true), &[18, 1], true),
    (END, &[], (Pid::Ack, false), &[], false),
];

/// Whether a device answers so.
fn is_answered(device: &mut Device, row: &Row) -> bool {
    let ((num, way, pid, toggle), out, (reply, is_data), bytes, acks) = *row;
    if num > 15 || out.len() > 8 {
        return false;
    }
    let ask = ask(&name(num, way), pid, toggle);
    let answer = device.answer(&ask, out);
    if acks {
        device.acked(&ask);
    }
    is_reply(answer, reply, is_data, bytes)
}

/// A device with an endpoint of each kind is built, and each of its calls answers once.
#[test]
fn each_kind_answers(rt: HostRuntime) -> Result<(), Fail> {
    let text = scripted(rt.alloc())?;
    assert!(rt; is_scripted(&text));
    let mut device = Device::build(rt.alloc(), &text).map_err(|_| "memory")?;
    device.begin();
    for row in ROWS {
        assert!(rt; is_answered(&mut device, row));
    }
    let took: &[u8] = &[7, 8];
    assert_eq!(rt;
        (
            device.taken(&name(1, Way::Out)),
            device.acted(&name(0, Way::Ctl))
        ),
        (took, 1)
    );
    Ok(())
}
