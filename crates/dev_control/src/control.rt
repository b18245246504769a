ghost use Rattle.std.specs.Prelude.{◌≡◌, ℕ, ◌+◌, ◌≤◌, ◌<◌, ◌==◌, nat_lt, nat_le, length, take, if◌then◌else◌};
ghost use Rattle.std.specs.Option.{option_copied, option_map};
ghost use Rattle.dev_control.specs.Stages.{opened, token_of, data_pid, sequence_of, is_read, wanted_of, sent_of, has_packet, packet_at, read_stage, write_stage, stage_with, stage_at, stage_of, in_row, out_row, ping_row, setup_row, is_status, far_with, out_row_at, unless_nak, stage_row, packet_with, pid_with, row_reply, begun_with, moved_to, acted_on, after_stage_row, stages_reply, stages_after, stages_acked, stages_reset};

use crate::rows::{Sequence, Stage, StageRow, StageToken};
use std::marker::Model;
use usb_base::{Ask, Packet, Pid, Reply};

/// The token of a PID (USB 2.0, 8.3.1 and 8.4.1).
pub fn token(pid: Pid) -> StageToken
    ensures { result ≡ token_of pid }
{
    match pid {
        Pid::Setup => StageToken::Setup,
        Pid::In => StageToken::In,
        Pid::Out => StageToken::Out,
        Pid::Ping => StageToken::Ping,
        _ => StageToken::Other,
    }
}

/// The data PID of a toggle (USB 2.0, 8.6).
pub fn data_pid(toggle: bool) -> Pid
    ensures { result ≡ data_pid toggle }
{
    if toggle { Pid::Data1 } else { Pid::Data0 }
}

/// What a data PID is to a receiver with this toggle (USB 2.0, 8.6).
pub fn sequence(toggle: bool, pid: Pid) -> Sequence
    ensures { result ≡ sequence_of toggle pid }
{
    match (toggle, pid) {
        (false, Pid::Data0) | (true, Pid::Data1) => Sequence::Next,
        (false, Pid::Data1) | (true, Pid::Data0) => Sequence::Repeat,
        _ => Sequence::Neither,
    }
}

fn in_row(stage: Stage) -> StageRow
    ensures { result ≡ in_row stage }
{
    match stage {
        Stage::Reading => StageRow::Sends,
        Stage::AllWritten | Stage::NoData => StageRow::Confirms,
        _ => StageRow::Stalls,
    }
}

fn ping_row(stage: Stage) -> StageRow
    ensures { result ≡ ping_row stage }
{
    match stage {
        Stage::Refusing => StageRow::Stalls,
        _ => StageRow::HasRoom,
    }
}

fn setup_row(out: &[u8]) -> StageRow
    ensures { result ≡ setup_row out.now }
{
    match <[u8; 8]>::try_from(out) {
        Ok(setup) => StageRow::Begins(setup),
        Err(_) => StageRow::Ignores,
    }
}

fn out_row(stage: Stage, sequence: Sequence, status: bool, far: Option<u32>) -> StageRow
    ensures { result ≡ out_row stage sequence status far }
{
    match (stage, sequence, far) {
        (Stage::Reading | Stage::AllRead, _, _) if status => StageRow::Acknowledges,
        (Stage::Writing, Sequence::Next, Some(to)) => StageRow::Takes(to),
        (Stage::Writing | Stage::AllWritten, Sequence::Repeat, _) => StageRow::Drops,
        _ => StageRow::Stalls,
    }
}

fn is_status(pid: Pid, n: usize) -> bool
    ensures { result ≡ is_status pid n }
{
    match pid {
        Pid::Data1 => n == 0,
        _ => false,
    }
}

/// The request of the last SETUP.
#[derive(Clone, Copy, Debug, PartialEq, Eq)]
pub struct Request {
    /// Its eight setup bytes.
    pub setup: [u8; 8],
    /// How far its data stage is, in bytes; a packet of a read counts as the maximum, however short it was.
    pub moved: u32,
    /// The toggle of its next data packet.
    pub toggle: bool,
    /// Whether it was acted on.
    pub done: bool,
}

impl Request {
    fn wanted(&self) -> usize
        ensures wanted { result ≡ wanted_of self.now.setup }
        ensures bound { result < 65536 }
    {
        self.setup[6] as usize + 256 * self.setup[7] as usize
    }

    fn sent<'a>(&self, reply: &'a [u8]) -> &'a [u8]
        ensures sent { result.now ≡ sent_of self.now.setup reply.now }
        ensures bound { length result.now < 65536 }
    {
        let wanted = self.wanted();
        if wanted < reply.len() {
            &reply[..wanted]
        } else {
            reply
        }
    }

    fn has_packet(&self, sent: usize) -> bool
        ensures { result ≡ has_packet (wanted_of self.now.setup) sent self.now.moved }
    {
        let moved = self.moved as usize;
        moved < sent || moved == sent && moved < self.wanted()
    }

    fn far_with(&self, n: usize) -> Option<u32>
        requires { n ≤ 1024 }
        ensures { result ≡ far_with self.now n }
    {
        let to = self.moved as usize + n;
        if to <= self.wanted() {
            Some(to as u32)
        } else {
            None
        }
    }

    fn stage(&self, reply: &[u8]) -> Stage
        ensures { result ≡ stage_with reply.now self.now }
    {
        if self.wanted() == 0 {
            return Stage::NoData;
        }
        if self.setup[0] >= 128 {
            return self.read_stage(reply);
        }
        self.write_stage()
    }

    fn read_stage(&self, reply: &[u8]) -> Stage
        ensures { result ≡ read_stage (wanted_of self.now.setup) (length (sent_of self.now.setup reply.now)) self.now.moved }
    {
        if self.has_packet(self.sent(reply).len()) {
            Stage::Reading
        } else {
            Stage::AllRead
        }
    }

    fn write_stage(&self) -> Stage
        ensures { result ≡ write_stage (wanted_of self.now.setup) self.now.moved }
    {
        if (self.moved as usize) < self.wanted() {
            Stage::Writing
        } else {
            Stage::AllWritten
        }
    }

    fn packet(&self, max: u16, reply: &[u8]) -> Packet
        requires { max ≤ 1024 }
        ensures { result ≡ packet_at max (sent_of self.now.setup reply.now) self.now.moved }
    {
        let sent = self.sent(reply);
        let from = usize::min(self.moved as usize, sent.len());
        let rest = &sent[from..];
        let len = usize::min(max as usize, rest.len());
        Packet::copy_of(&rest[..len])
    }
}

/// The state of a control endpoint, which contracts see as a `Stages`.
#[derive(Drop)]
pub struct ControlStages {
    max: u16,
    naks: u64,
    request: Option<Request>,
    acted: u32,
}

impl Model for ControlStages {
    ghost use Rattle.std.specs.Prelude.{◌≤◌};
    ghost use Rattle.dev_control.specs.Stages.{Stages};

    ghost Value = { Stages };

    ghost view = { λ c. record { max = c.max; naks = c.naks; request = c.request; acted = c.acted } };

    ghost invariant = { λ c. c.max ≤ 1024 };
}

impl ControlStages {
    /// A control endpoint before its first SETUP: packets have at most `max` bytes, 1 to 64 in a script and at most 1,024 here, and
    /// its first `naks` tokens other than SETUP are answered by NAK.
    pub fn new(max: u16, naks: u64) -> ControlStages
        requires { max ≤ 1024 }
        ensures { result ≡ opened max naks }
    {
        ControlStages {
            max,
            naks,
            request: None,
            acted: 0,
        }
    }

    /// The request of the last SETUP; `None` exactly before the first one.
    pub fn request(&self) -> Option<Request>
        ensures { result ≡ self.now.request }
    {
        self.request
    }

    /// How often it acted on a request; it stays at 4,294,967,295 once it is there.
    pub fn acted(&self) -> u32
        ensures { result ≡ self.now.acted }
    {
        self.acted
    }

    /// It forgets the request under way.
    pub fn reset(&mut self)
        ensures { self.new ≡ stages_reset self.old }
    {
        self.request = None;
    }

    /// The stage at which the next token finds it, where `reply` is the device's reply to the request under way, if it has one.
    pub fn stage(&self, reply: Option<&[u8]>) -> Stage
        ensures { result ≡ stage_of (option_copied reply.entry) self.now }
    {
        match (reply, self.request) {
            (Some(reply), Some(request)) => request.stage(reply),
            _ => Stage::Refusing,
        }
    }

    /// What it does at an ask that sends `out`.
    pub fn row(&self, ask: &Ask, out: &[u8], reply: Option<&[u8]>) -> StageRow
        requires { length out.now ≤ 1024 }
        ensures { result ≡ stage_row (option_copied reply.entry) self.now ask.now out.now }
    {
        match token(ask.pid) {
            StageToken::Setup => setup_row(out),
            StageToken::In => self.unless_nak(in_row(self.stage(reply))),
            StageToken::Out => self.unless_nak(self.out_row(
                self.stage(reply),
                ask.toggle,
                out.len(),
            )),
            StageToken::Ping => self.unless_nak(ping_row(self.stage(reply))),
            StageToken::Other => self.unless_nak(StageRow::Stalls),
        }
    }

    fn unless_nak(&self, row: StageRow) -> StageRow
        ensures { result ≡ unless_nak self.now.naks row }
    {
        if self.naks == 0 { row } else { StageRow::Naks }
    }

    fn out_row(&self, stage: Stage, pid: Pid, n: usize) -> StageRow
        requires { n ≤ 1024 }
        ensures { result ≡ out_row_at stage self.now.request pid n }
    {
        let Some(request) = self.request else {
            return StageRow::Stalls;
        };
        let sequence = sequence(request.toggle, pid);
        out_row(stage, sequence, is_status(pid, n), request.far_with(n))
    }

    /// Answers an ask that sends `out`, at most 1,024 bytes. `reply` is the device's reply to the request under way, if it has one;
    /// a SETUP begins a new request, whatever it is.
    pub fn answer(&mut self, ask: &Ask, out: &[u8], reply: Option<&[u8]>) -> Reply
        requires { length out.now ≤ 1024 }
        ensures reply { result ≡ stages_reply (option_copied reply.entry) self.old ask.now out.now }
        ensures after { self.new ≡ stages_after (option_copied reply.entry) self.old ask.now out.now }
    {
        match self.row(ask, out, reply) {
            StageRow::Begins(setup) => self.begin(setup),
            StageRow::Ignores => Reply::Silent,
            StageRow::Naks => self.refuse(),
            StageRow::Sends => self.send(reply),
            StageRow::Takes(to) => self.take(to),
            StageRow::Drops | StageRow::HasRoom => Reply::Hand(Pid::Ack),
            StageRow::Acknowledges => self.acknowledge(),
            StageRow::Confirms => self.confirm(),
            StageRow::Stalls => Reply::Hand(Pid::Stall),
        }
    }

    /// The host's ACK of the data just sent was heard.
    pub fn acked(&mut self, reply: Option<&[u8]>)
        ensures { self.new ≡ stages_acked (option_copied reply.entry) self.old }
    {
        let (Some(reply), Some(request)) = (reply, self.request) else {
            return;
        };
        if let Stage::Reading = request.stage(reply) {
            self.request = Some(Request {
                moved: request.moved + self.max as u32,
                toggle: !request.toggle,
                ..request
            });
        }
    }

    fn begin(&mut self, setup: [u8; 8]) -> Reply
        ensures reply { result ≡ Reply.Hand Pid.Ack }
        ensures after { self.new ≡ after_stage_row (StageRow.Begins setup) self.old }
    {
        self.request = Some(Request {
            setup,
            moved: 0,
            toggle: true,
            done: false,
        });
        Reply::Hand(Pid::Ack)
    }

    fn refuse(&mut self) -> Reply
        ensures reply { result ≡ Reply.Hand Pid.Nak }
        ensures after { self.new ≡ after_stage_row StageRow.Naks self.old }
    {
        self.naks = self.naks.saturating_sub(1);
        Reply::Hand(Pid::Nak)
    }

    fn send(&self, reply: Option<&[u8]>) -> Reply
        ensures { result ≡ row_reply StageRow.Sends (option_copied reply.entry) self.now }
    {
        match (reply, self.request) {
            (Some(reply), Some(request)) => Reply::Bytes(
                data_pid(request.toggle),
                request.packet(self.max, reply),
            ),
            (None, Some(request)) => Reply::Bytes(data_pid(request.toggle), Packet::empty()),
            (_, None) => Reply::Bytes(Pid::Data1, Packet::empty()),
        }
    }

    fn take(&mut self, to: u32) -> Reply
        ensures reply { result ≡ Reply.Hand Pid.Ack }
        ensures after { self.new ≡ after_stage_row (StageRow.Takes to) self.old }
    {
        if let Some(request) = self.request {
            self.request = Some(Request {
                moved: to,
                toggle: !request.toggle,
                ..request
            });
            return Reply::Hand(Pid::Ack);
        }
        Reply::Hand(Pid::Ack)
    }

    fn act(&mut self)
        ensures { self.new ≡ acted_on self.old }
    {
        let Some(request) = self.request else {
            return;
        };
        if request.done {
            return;
        }
        self.request = Some(Request {
            done: true,
            ..request
        });
        self.acted = self.acted.saturating_add(1);
    }

    fn acknowledge(&mut self) -> Reply
        ensures reply { result ≡ Reply.Hand Pid.Ack }
        ensures after { self.new ≡ after_stage_row StageRow.Acknowledges self.old }
    {
        self.act();
        Reply::Hand(Pid::Ack)
    }

    fn confirm(&mut self) -> Reply
        ensures reply { result ≡ row_reply StageRow.Confirms None self.old }
        ensures after { self.new ≡ after_stage_row StageRow.Confirms self.old }
    {
        self.act();
        Reply::Bytes(Pid::Data1, Packet::empty())
    }
}
