ghost use Rattle.std.specs.Prelude.{◌≡◌, ◌≤◌, length, IfOk};
ghost use Rattle.dev_control.specs.Stages.{stages_reply};
ghost use Rattle.hub_ports.specs.Ports.{is_enabled};
ghost use Rattle.hub_class.specs.HubContent.{opening};
ghost use Rattle.hub_class.specs.Requesting.{requested, request_at, request_answer, effect};
ghost use Rattle.hub_class.specs.EndpointZero.{suits, reply_bytes, reply_under, acted_with, hub_reply, hub_answered, hub_answered_at, hub_acked, hub_reset};
ghost use Rattle.hub_class.specs.Translating.{transact_reply, transacted, HubWorks};

use crate::endpoint_zero::{acting, bytes, is_token_pid};
use dev_control::ControlStages;
use hub_ports::{HubReply, HubRequest, Ports};
use multi_tt::Translators;
use script_types::HubText;
use std::alloc::Global;
use std::marker::Model;
use usb_base::{Ask, DevAddr, EpName, Memory, Reply, Split, Wire};

/// The maximum packet size of endpoint 0, in bytes.
const PACKET: u16 = 64;

/// A hub. A contract sees its address, its ports, its endpoint 0 and its translators.
#[derive(Drop)]
pub struct Hub {
    addr: DevAddr,
    ports: Ports,
    control: ControlStages,
    translators: Translators,
}

impl Model for Hub {
    ghost use Rattle.hub_class.specs.HubContent.{HubContent};

    ghost Value = { HubContent };

    ghost view = { λ h. record { address = h.addr; ports = h.ports; control = h.control; translators = h.translators } };
}

impl Hub {
    /// The hub of its text, which has 1 to 15 ports: each with power, and enabled where a device is attached.
    pub fn build(alloc: Global, text: &HubText) -> Result<Hub, Memory>
        requires { length text.now.attached ≤ 255 }
        ensures { IfOk result (λ h. h ≡ opening text.now) }
    {
        let ports = Ports::build(alloc, text.attached.as_slice())?;
        let translators = Translators::build(
            alloc,
            text.attached.as_slice().len() as u8,
            text.multi,
        )?;
        Ok(Hub {
            addr: text.addr,
            ports,
            control: ControlStages::new(PACKET, 0),
            translators,
        })
    }

    /// Its address.
    pub fn address(&self) -> DevAddr
        ensures { result ≡ self.now.address }
    {
        self.addr
    }

    /// Makes the request of eight setup bytes (USB 2.0, 11.24.2). `Stall` comes exactly where the hub doesn't know it, and
    /// then nothing changes.
    pub fn request(&mut self, setup: [u8; 8]) -> HubReply
        ensures answer { result ≡ request_answer setup self.old }
        ensures after { self.new ≡ requested setup self.old }
    {
        match self.known(&setup) {
            Some(request) => {
                let reply = self.ports.reply(&request);
                self.make(&request);
                reply
            }
            None => HubReply::Stall,
        }
    }

    /// The request of eight setup bytes, if the hub knows it.
    fn known(&self, setup: &[u8; 8]) -> Option<HubRequest>
        ensures { result ≡ request_at setup.now self.now }
    {
        self.ports.request(self.translators.is_multi(), setup)
    }

    fn make(&mut self, request: &HubRequest)
        ensures { self.new ≡ effect request.now self.old }
    {
        match request {
            HubRequest::ClearBuffer(port, key) => self.translators.clear(*port, key),
            HubRequest::ResetTranslator(port) => self.translators.reset(*port),
            request => self.ports.make(request),
        }
    }

    /// What the request of eight setup bytes would answer now.
    fn reply(&self, setup: &[u8; 8]) -> HubReply
        ensures { result ≡ request_answer setup.now self.now }
    {
        match self.known(setup) {
            Some(request) => self.ports.reply(&request),
            None => HubReply::Stall,
        }
    }

    /// Answers an ask that sends `out`, at most 1,024 bytes, taken as a plain one: by endpoint 0 (USB 2.0, 8.5.3), or by silence where
    /// it has another address, another endpoint or no token, and then nothing changes.
    pub fn answer(&mut self, ask: &Ask, out: &[u8]) -> Reply
        requires { length out.now ≤ 1024 }
        ensures answer { result ≡ hub_reply ask.now out.now self.old }
        ensures after { self.new ≡ hub_answered ask.now out.now self.old }
    {
        if !self.suits(ask) {
            return Reply::Silent;
        }
        self.respond(ask, out)
    }

    /// The host's ACK of the data just sent by endpoint 0 was heard.
    pub fn acked(&mut self, ask: &Ask)
        ensures { self.new ≡ hub_acked ask.now self.old }
    {
        if !self.suits(ask) {
            return;
        }
        let reply = self.reply_under();
        self.control.acked(bytes(&reply));
    }

    /// The endpoint with this name is reset, as its halt is cleared (USB 2.0, 9.4.5): where it is endpoint 0 of the hub, that forgets the
    /// request under way.
    pub fn reset(&mut self, name: &EpName)
        ensures { self.new ≡ hub_reset name.now self.old }
    {
        if self.addr.get() == name.addr.get() {
            self.control.reset();
        }
    }

    /// How many requests its endpoint 0 acted on; it stays at 4,294,967,295 once it is there.
    pub fn acted(&self) -> u32
        ensures { result ≡ self.now.control.acted }
    {
        self.control.acted()
    }

    /// The enable bit of a port, from 1; false for one that the hub doesn't have.
    pub fn enabled(&self, port: u8) -> bool
        ensures { result ≡ is_enabled port self.now.ports }
    {
        self.ports.enabled(port)
    }

    /// Takes a split ask for a full- or low-speed device below, with the bytes that it sends, at most 1,024, and answers it
    /// by the translator of its port (USB 2.0, 11.14 and 11.17 to 11.21). Stuffed bits make the transaction below longer by
    /// `stuff` bytes in 36 (7.1.9). An ask that isn't split, or for whose port there is no translator, is answered by silence, and
    /// changes nothing.
    pub fn transact(&mut self, ask: &Ask, out: &[u8], stuff: u8) -> Reply
        requires { length out.now ≤ 1024 }
        ensures answer { result ≡ transact_reply ask.now self.old }
        ensures after { self.new ≡ transacted ask.now out.now stuff self.old }
    {
        match ask.split {
            Split::Plain => Reply::Silent,
            Split::Start { .. } => self.translators.start(ask, out, stuff),
            Split::Complete { .. } => self.translators.complete(ask),
        }
    }

    /// Works on the bus below for the microframe that ended, at the begin of the one with this frame index (0 to 16,383): each
    /// translator in the order of the ports, with 188 byte-times (USB 2.0, 11.18).
    pub fn microframe<W: Wire>(&mut self, frindex: u16, down: &mut W)
        ensures { HubWorks W.transacts frindex self.old down.old self.new down.new }
    {
        self.translators.microframe(frindex, down);
    }

    fn suits(&self, ask: &Ask) -> bool
        ensures { result ≡ suits ask.now self.now }
    {
        ask.addr.get() == self.addr.get() && ask.ep.get() == 0 && is_token_pid(ask.pid)
    }

    /// The reply to the request under way, as it would be now.
    fn reply_under(&self) -> HubReply
        ensures { reply_bytes result ≡ reply_under self.now }
    {
        match self.control.request() {
            Some(request) => self.reply(&request.setup),
            None => HubReply::Stall,
        }
    }

    fn respond(&mut self, ask: &Ask, out: &[u8]) -> Reply
        requires { length out.now ≤ 1024 }
        ensures answer { result ≡ stages_reply (reply_under self.old) self.old.control ask.now out.now }
        ensures after { self.new ≡ hub_answered_at ask.now out.now self.old }
    {
        let reply = self.reply_under();
        let known = bytes(&reply);
        let row = self.control.row(ask, out, known);
        let acting = acting(row, self.control.request());
        let answer = self.control.answer(ask, out, known);
        self.act(acting);
        answer
    }

    fn act(&mut self, setup: Option<[u8; 8]>)
        ensures { self.new ≡ acted_with setup self.old }
    {
        if let Some(setup) = setup {
            let _reply = self.request(setup);
        }
    }
}
