ghost use Rattle.std.specs.Prelude.{◌≡◌, ◌≤◌, ◌<◌, ◌+◌, ◌*◌, ◌^◌, length, slice_get, slice_set, position, [], ◌∷◌, ◌++◌, IfOk, IfSome};
ghost use Rattle.drv_table.specs.DriverContent.{works, is_same_name};
ghost use Rattle.drv_table.specs.Harvesting.{worker_from};

use crate::bits::{first_bit, write_bit};
use crate::names::find;
use drv_table::Endpoint;
use std::alloc::Global;
use std::marker::Model;
use usb_base::{EpName, Memory};

/// The endpoints of a driver, and which of them have something to harvest.
#[derive(Drop)]
pub struct Endpoints {
    all: Vec<Endpoint>,
    working: Vec<u64>,
}

impl Model for Endpoints {
    ghost use Rattle.std.specs.Prelude.{◌≤◌, ◌*◌, ◌^◌, length, vec_capacity};
    ghost use Rattle.drv_endpoints.specs.Working.{Roster, IsWorkSet};

    ghost Value = { Roster };

    ghost view = { λ x. record { items = x.all.items; most = vec_capacity x.all } };

    ghost invariant = { λ x. IsWorkSet x.all.items x.working.items × (length x.all.items ≤ vec_capacity x.all)
        × (vec_capacity x.all ≤ 64 * length x.working.items) × (length x.working.items ≤ 2 ^ 58) };
}

/// Whether the endpoint has a transfer to harvest.
fn has_work(endpoint: &Endpoint) -> bool
    ensures { result ≡ works endpoint.now }
{
    endpoint.next.is_some() && endpoint.ended.is_none()
}

impl Endpoints {
    /// No endpoints, with room for as many as `most`.
    ///
    /// # Errors
    ///
    /// `Memory` where the room isn't found.
    pub fn build(alloc: Global, most: usize) -> Result<Endpoints, Memory>
        ensures none { IfOk result (λ x. x.items ≡ []) }
        ensures room { IfOk result (λ x. most ≤ x.most) }
    {
        let all = Vec::with_capacity(alloc, most)?;
        let working = vec![in alloc; 0u64; all.capacity() / 64 + 1]?;
        Ok(Endpoints { all, working })
    }

    /// The endpoints, in the order of opening.
    pub fn as_slice(&self) -> &[Endpoint]
        ensures { result.now ≡ self.now.items }
    {
        self.all.as_slice()
    }

    /// The endpoint of this number; None exactly where there is none.
    pub fn get(&self, e: usize) -> Option<Endpoint>
        ensures endpoint { result ≡ slice_get self.now.items e }
        ensures few { IfSome result (λ _. e + 1 < 2 ^ 64) }
    {
        self.all.get(e).copied()
    }

    /// The number of the endpoint with this name.
    pub fn find(&self, name: &EpName) -> Option<usize>
        ensures place { result ≡ position (λ x. is_same_name x.desc.name name.now) self.now.items }
        ensures within { IfSome result (λ e. e < length self.now.items) }
    {
        find(&self.all, name)
    }

    /// One more endpoint.
    pub fn push(&mut self, endpoint: &Endpoint)
        requires { length self.old.items < self.old.most }
        ensures items { self.new.items ≡ self.old.items ++ endpoint.now ∷ [] }
        ensures room { self.new.most ≡ self.old.most }
    {
        let e = self.all.len();
        let new = Endpoint {
            next: endpoint.next,
            ..*endpoint
        };
        let works = has_work(&new);
        self.all.push_reserved(new);
        write_bit(&mut self.working, e, works);
    }

    /// The endpoint of this number is another now.
    pub fn write(&mut self, e: usize, endpoint: Endpoint)
        requires { e < length self.old.items }
        ensures items { self.new.items ≡ slice_set self.old.items e endpoint }
        ensures room { self.new.most ≡ self.old.most }
    {
        let works = has_work(&endpoint);
        self.all[e] = endpoint;
        write_bit(&mut self.working, e, works);
    }

    /// The number of the first endpoint with something to harvest, from this number on.
    pub fn next_from(&self, from: usize) -> Option<usize>
        ensures { result ≡ worker_from self.now.items from }
    {
        first_bit(&self.working, from)
    }
}
