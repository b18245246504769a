ghost use Rattle.std.specs.Prelude.{◌≡◌, ℕ, ◌≤◌, ◌<◌, ◌^◌, length, IfOk, IsTrue};
ghost use Rattle.endpoint_script.specs.Device.{is_scripted_endpoint, opened_endpoint, endpoint_begun, part_reply, endpoint_answered, endpoint_acked, part_taken, part_acted, is_way, is_named};
ghost use Rattle.endpoint_script.specs.Resets.{endpoint_reset};

use crate::control_endpoint::ControlEndpoint;
use crate::iso_sender::IsoSender;
use crate::receiver::Receiver;
use crate::sender::Sender;
use script_types::EpText;
use std::alloc::{AllocError, Global};
use usb_base::{Ask, EpDesc, EpKind, EpNum, Reply, Speed, Way};

/// What an endpoint does, by its transfer type and way (USB 2.0, 5.4 to 5.8).
#[derive(Drop)]
pub enum Role {
    /// A bulk or interrupt IN endpoint.
    Sends(Sender),
    /// A bulk or interrupt OUT endpoint.
    Takes(Receiver),
    /// A control endpoint.
    Controls(ControlEndpoint),
    /// An isochronous IN endpoint.
    Streams(IsoSender),
    /// An isochronous OUT endpoint, which answers nothing.
    Hears,
}

fn is_way(own: Way, way: Way) -> bool
    ensures { result ≡ is_way own way }
{
    match (own, way) {
        (Way::In, Way::In) | (Way::Out, Way::Out) | (Way::Ctl, Way::Ctl) => true,
        _ => false,
    }
}

/// An endpoint of a device.
#[derive(Drop)]
pub struct Endpoint {
    /// What the host knows of it.
    pub desc: EpDesc,
    /// What it does.
    pub part: Role,
}

impl Endpoint {
    /// The endpoint as its text describes it, before the first ask.
    pub fn open(alloc: Global, text: &EpText) -> Result<Endpoint, AllocError>
        requires { IsTrue (is_scripted_endpoint text.now) }
        ensures { IfOk result (λ e. e ≡ opened_endpoint text.now) }
    {
        let desc = text.desc;
        let items = text.items.as_slice();
        let part = match (desc.name.way, desc.kind) {
            (Way::Ctl, _) => Role::Controls(ControlEndpoint::open(alloc, desc.max, items)?),
            (Way::In, EpKind::Iso) => Role::Streams(IsoSender::open(alloc, desc.multi, items)?),
            (Way::In, _) => Role::Sends(Sender::open(alloc, items)?),
            (Way::Out, EpKind::Iso) => Role::Hears,
            (Way::Out, _) => Role::Takes(Receiver::open(alloc, items, text.room)?),
        };
        Ok(Endpoint { desc, part })
    }

    /// Whether it has this number and way.
    pub fn is_named(&self, num: EpNum, way: Way) -> bool
        ensures { result ≡ is_named num way self.now }
    {
        self.desc.name.num.get() == num.get() && is_way(self.desc.name.way, way)
    }

    /// A microframe or frame begins.
    pub fn begin(&mut self)
        ensures { self.new ≡ endpoint_begun self.old }
    {
        if let Role::Streams(sender) = &mut self.part {
            sender.begin();
        }
    }

    /// Answers an ask that sends `out`, at most 1,024 bytes, as an endpoint of a device of this speed.
    pub fn answer(&mut self, speed: Speed, ask: &Ask, out: &[u8]) -> Reply
        requires { length out.now ≤ 1024 }
        ensures reply { result ≡ part_reply speed self.old.part ask.now out.now }
        ensures after { self.new ≡ endpoint_answered self.old ask.now out.now }
    {
        match &mut self.part {
            Role::Sends(sender) => sender.answer(),
            Role::Takes(receiver) => receiver.answer(speed, ask, out),
            Role::Controls(control) => control.answer(ask, out),
            Role::Streams(sender) => sender.answer(),
            Role::Hears => Reply::Silent,
        }
    }

    /// The host's ACK of the data just sent was heard.
    pub fn acked(&mut self)
        ensures { self.new ≡ endpoint_acked self.old }
    {
        match &mut self.part {
            Role::Sends(sender) => sender.acked(),
            Role::Controls(control) => control.acked(),
            _ => {}
        }
    }

    /// It is reset, as its halt is cleared (USB 2.0, 9.4.5).
    pub fn reset(&mut self)
        ensures { self.new ≡ endpoint_reset self.old }
    {
        match &mut self.part {
            Role::Sends(sender) => sender.reset(),
            Role::Takes(receiver) => receiver.reset(),
            Role::Controls(control) => control.reset(),
            _ => {}
        }
    }

    /// The bytes that it took, in order; none where it is no bulk or interrupt OUT endpoint.
    pub fn taken(&self) -> &[u8]
        ensures { result.now ≡ part_taken self.now.part }
    {
        match &self.part {
            Role::Takes(receiver) => receiver.taken(),
            _ => &[],
        }
    }

    /// How often it acted on a request; 0 where it is no control endpoint.
    pub fn acted(&self) -> u32
        ensures { result ≡ part_acted self.now.part }
    {
        match &self.part {
            Role::Controls(control) => control.acted(),
            _ => 0,
        }
    }
}
