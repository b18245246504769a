ghost use Rattle.std.specs.Prelude.{◌≡◌, ◌&&◌, ◌==◌};
ghost use Rattle.usb_base.specs.Acknowledgement.{acknowledges, has_handshake, is_plain, pid_bits};

use crate::packets::{Ask, EpKind, Pid, Reply, Split};

impl Pid {
    /// The four bits of the packet identifier (USB 2.0, 8.3.1).
    pub fn bits(self) -> u8
        ensures { result ≡ pid_bits self }
    {
        match self {
            Pid::Out => 0x1,
            Pid::In => 0x9,
            Pid::Sof => 0x5,
            Pid::Setup => 0xd,
            Pid::Data0 => 0x3,
            Pid::Data1 => 0xb,
            Pid::Data2 => 0x7,
            Pid::Mdata => 0xf,
            Pid::Ack => 0x2,
            Pid::Nak => 0xa,
            Pid::Stall => 0xe,
            Pid::Nyet => 0x6,
            Pid::Err => 0xc,
            Pid::Split => 0x8,
            Pid::Ping => 0x4,
        }
    }
}

impl EpKind {
    /// Whether a transaction of this transfer type ends in a handshake (USB 2.0, 8.5.5).
    pub fn has_handshake(self) -> bool
        ensures { result ≡ has_handshake self }
    {
        match self {
            EpKind::Control | EpKind::Bulk | EpKind::Interrupt => true,
            EpKind::Iso => false,
        }
    }
}

impl Ask {
    /// Whether the host sends ACK for this answer: data of a plain IN that isn't isochronous, where their PID isn't the
    /// expected one, so that the host has them, or they are no longer than the limit (USB 2.0, 8.5 and 8.6).
    pub fn acknowledges(&self, reply: &Reply) -> bool
        ensures { result ≡ acknowledges self.now reply.now }
    {
        match reply {
            Reply::Bytes(pid, bytes) => {
                self.has_reply_handshake()
                    && (pid.bits() != self.toggle.bits()
                        || bytes.as_slice().len() <= self.limit as usize)
            }
            Reply::Hand(_) | Reply::Silent => false,
        }
    }

    fn has_reply_handshake(&self) -> bool
        ensures { result ≡ (is_plain self.now.split && (pid_bits self.now.pid == pid_bits Pid.In) && has_handshake self.now.kind) }
    {
        match self.split {
            Split::Plain => self.pid.bits() == Pid::In.bits() && self.kind.has_handshake(),
            Split::Start { .. } | Split::Complete { .. } => false,
        }
    }
}
