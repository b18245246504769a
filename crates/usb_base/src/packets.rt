ghost use Rattle.std.specs.Prelude.{◌≡◌, ◌≤◌, length};

use crate::items::Packet;
use crate::numbers::{DevAddr, EpNum};

/// Which way data goes, seen from the host (USB 2.0, 5.3.1).
#[derive(Clone, Copy, Debug, PartialEq, Eq, PartialOrd, Ord, Hash)]
pub enum Dir {
    /// From the device to the host.
    In,
    /// From the host to the device.
    Out,
}

/// How an endpoint is addressed in a script: by its direction, or as a control endpoint, which has both.
#[derive(Clone, Copy, Debug, PartialEq, Eq, PartialOrd, Ord, Hash)]
pub enum Way {
    In,
    Out,
    Ctl,
}

/// The speed of a device: 12, 1.5 or 480 Mb/s (USB 2.0, 4.2.1).
#[derive(Clone, Copy, Debug, PartialEq, Eq, PartialOrd, Ord, Hash)]
pub enum Speed {
    Full,
    Low,
    High,
}

/// The transfer type of an endpoint, in the order of its two bits in a descriptor (USB 2.0, 5.4 and 9.6.6).
#[derive(Clone, Copy, Debug, PartialEq, Eq, PartialOrd, Ord, Hash)]
pub enum EpKind {
    Control,
    Iso,
    Bulk,
    Interrupt,
}

/// A packet identifier, with its four bits (USB 2.0, 8.3.1).
#[derive(Clone, Copy, Debug, PartialEq, Eq, PartialOrd, Ord, Hash)]
pub enum Pid {
    Out = 0x1,
    In = 0x9,
    Sof = 0x5,
    Setup = 0xd,
    Data0 = 0x3,
    Data1 = 0xb,
    Data2 = 0x7,
    Mdata = 0xf,
    Ack = 0x2,
    Nak = 0xa,
    Stall = 0xe,
    Nyet = 0x6,
    Err = 0xc,
    Split = 0x8,
    Ping = 0x4,
}

/// What becomes of a packet on its way. Its receiver has nothing that it can use of a lost or a damaged one.
#[derive(Clone, Copy, Debug, PartialEq, Eq, PartialOrd, Ord, Hash)]
pub enum Fate {
    Good,
    Lost,
    Damaged,
}

/// Which part of its data a start-split of an isochronous OUT carries (USB 2.0, 8.4.2.2, the S and E bits).
#[derive(Clone, Copy, Debug, PartialEq, Eq, PartialOrd, Ord, Hash)]
pub enum DataPart {
    All,
    Begin,
    Middle,
    End,
}

/// Whether a transaction is split by the translator of a hub, and which half it is (USB 2.0, 8.4.2).
#[derive(Clone, Copy, Debug, PartialEq, Eq)]
pub enum Split {
    /// No split: the ask is for the addressed device.
    Plain,
    /// A start-split to the translator of `hub` for its `port`.
    Start {
        hub: DevAddr,
        port: u8,
        part: DataPart,
    },
    /// A complete-split to the translator of `hub` for its `port`.
    Complete {
        hub: DevAddr,
        port: u8,
    },
}

/// What the host asks in one transaction.
#[derive(Clone, Copy, Debug, PartialEq, Eq)]
pub struct Ask {
    /// Plain, or which half of a split transaction.
    pub split: Split,
    /// The token: OUT, IN, SETUP or PING.
    pub pid: Pid,
    /// The addressed device.
    pub addr: DevAddr,
    /// The addressed endpoint.
    pub ep: EpNum,
    /// The speed of the addressed device.
    pub speed: Speed,
    /// The transfer type of the addressed endpoint.
    pub kind: EpKind,
    /// The data PID that the host sends or expects.
    pub toggle: Pid,
    /// The most bytes that the host can take.
    pub limit: u16,
}

/// What the host hears in answer to an ask.
#[derive(Debug, Drop)]
pub enum Reply {
    /// Nothing that it can use.
    Silent,
    /// A data packet with its PID.
    Bytes(Pid, Packet),
    /// A handshake.
    Hand(Pid),
}

impl Reply {
    ghost use Rattle.usb_base.specs.declared.packets.Reply.{Reply as Answer};

    /// Becomes a data packet with this PID and a copy of `bytes`, in the room of the packet that stands there, if one does.
    pub fn set_bytes(&mut self, pid: Pid, bytes: &[u8])
        requires { length bytes.now ≤ 1024 }
        ensures { self.new ≡ Answer.Bytes pid bytes.now }
    {
        match self {
            Reply::Bytes(old, packet) => {
                *old = pid;
                packet.set(bytes);
            }
            _ => *self = Reply::Bytes(pid, Packet::copy_of(bytes)),
        }
    }

    /// Becomes a handshake. Where one stands there, no room of a packet is cleared.
    pub fn set_hand(&mut self, pid: Pid)
        ensures { self.new ≡ Answer.Hand pid }
    {
        match self {
            Reply::Hand(old) => *old = pid,
            _ => *self = Reply::Hand(pid),
        }
    }
}
