ghost use Rattle.std.specs.Prelude.{◌≡◌, ◌≤◌, length, ◌++◌, position, IfOk, OnOk};
ghost use Rattle.std.specs.Option.{option_copied, option_to_list};
ghost use Rattle.endpoint_script.specs.Items.{naks_of, request_in, requests_of};
ghost use Rattle.endpoint_script.specs.Controlling.{controlling_at, has_setup, place_under, place_in, reply_at, reply_of, controlling_reply, controlling_answered, controlling_acked};
ghost use Rattle.endpoint_script.specs.Resets.{controlling_reset};

use dev_control::{ControlStages, Request, StageToken, token};
use script_types::Item;
use std::alloc::{AllocError, Global};
use std::marker::Model;
use usb_base::{Ask, ListOf, Reply};

/// A request that a scripted control endpoint knows, with its reply.
#[derive(Debug, Drop)]
pub struct KnownRequest {
    /// The eight setup bytes.
    pub setup: [u8; 8],
    /// The bytes of its data stage, where that is an IN.
    pub reply: ListOf<u8>,
}

/// All NAKs among the items together, up to the last value of 64 bits.
fn naks(items: &[Item]) -> u64
    ensures { result ≡ naks_of items.now }
{
    let mut all = 0u64;
    for item in items {
        if let Item::Nak(n) = item {
            all = all.saturating_add(*n as u64);
        }
    }
    all
}

/// Appends a copy of the request that an item is.
fn add_request(alloc: Global, known: &mut Vec<KnownRequest>, item: &Item) -> Result<(), AllocError>
    ensures { OnOk result (known.new.items ≡ known.old.items ++ option_to_list (request_in item.now)) }
{
    let Item::Request { setup, bytes } = item else {
        return Ok(());
    };
    known.push(KnownRequest {
        setup: *setup,
        reply: ListOf::of(bytes.as_slice().to_vec(alloc)?),
    })?;
    Ok(())
}

/// Copies of the requests among the items, in order.
fn requests(alloc: Global, items: &[Item]) -> Result<Vec<KnownRequest>, AllocError>
    ensures { IfOk result (λ known. known.items ≡ requests_of items.now) }
{
    let mut known = Vec::new(alloc);
    for item in items {
        add_request(alloc, &mut known, item)?;
    }
    Ok(known)
}

/// Where the first request with these setup bytes stands.
fn place_in(requests: &[KnownRequest], setup: [u8; 8]) -> Option<usize>
    ensures { result ≡ place_in requests.now setup }
{
    requests.iter().position(|known| known.setup == setup)
}

/// Where the request under way stands.
fn place_under(requests: &[KnownRequest], request: Option<Request>) -> Option<usize>
    ensures { result ≡ place_under requests.now request }
{
    place_in(requests, request?.setup)
}

/// The reply of the request that stands at this place.
fn reply_at(requests: &[KnownRequest], place: Option<usize>) -> Option<&[u8]>
    ensures { option_copied result ≡ reply_at requests.now place }
{
    let known = requests.get(place?)?;
    Some(known.reply.as_slice())
}

/// A control endpoint, which contracts see as a `Controlling`.
#[derive(Drop)]
pub struct ControlEndpoint {
    stages: ControlStages,
    requests: Vec<KnownRequest>,
    place: Option<usize>,
}

impl Model for ControlEndpoint {
    ghost use Rattle.std.specs.Prelude.{◌≡◌};
    ghost use Rattle.endpoint_script.specs.Controlling.{Controlling, place_under};

    ghost Value = { Controlling };

    ghost view = { λ c. record { stages = c.stages; requests = c.requests.items } };

    ghost invariant = { λ c. c.place ≡ place_under c.requests.items c.stages.request };
}

impl ControlEndpoint {
    /// The endpoint before its first SETUP, with packets of at most `max` bytes, 1 to 1,024.
    pub fn open(alloc: Global, max: u16, items: &[Item]) -> Result<ControlEndpoint, AllocError>
        requires { max ≤ 1024 }
        ensures { IfOk result (λ c. c ≡ controlling_at max items.now) }
    {
        Ok(ControlEndpoint {
            stages: ControlStages::new(max, naks(items)),
            requests: requests(alloc, items)?,
            place: None,
        })
    }

    /// How often it acted on a request; it stays at 4,294,967,295 once it is there.
    pub fn acted(&self) -> u32
        ensures { result ≡ self.now.stages.acted }
    {
        self.stages.acted()
    }

    /// Answers an ask that sends `out`, at most 1,024 bytes.
    pub fn answer(&mut self, ask: &Ask, out: &[u8]) -> Reply
        requires { length out.now ≤ 1024 }
        ensures reply { result ≡ controlling_reply self.old ask.now out.now }
        ensures after { self.new ≡ controlling_answered self.old ask.now out.now }
    {
        let reply = reply_at(&self.requests, self.place);
        let answer = self.stages.answer(ask, out, reply);
        if let StageToken::Setup = token(ask.pid) {
            self.place = place_under(&self.requests, self.stages.request());
        }
        answer
    }

    /// The host's ACK of the data just sent was heard.
    pub fn acked(&mut self)
        ensures { self.new ≡ controlling_acked self.old }
    {
        let reply = reply_at(&self.requests, self.place);
        self.stages.acked(reply);
    }

    /// The endpoint is reset: it forgets the request under way.
    pub fn reset(&mut self)
        ensures { self.new ≡ controlling_reset self.old }
    {
        self.stages.reset();
        self.place = None;
    }
}
