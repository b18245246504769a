ghost use Rattle.std.specs.Prelude.{◌≡◌, ◌≤◌, ◌<◌, ◌+◌, ◌-◌, ◌*◌, Some, length, slice_get, min, max};
ghost use Rattle.usb_base.specs.Limits.{longest_qtd};
ghost use Rattle.drv_table.specs.Words.{in_stage, out_stage, setup_stage, data_stage, status_stage, request_length, asks_in, request_stages, pieces};

use drv_table::{Alternate, Stage};

/// How a transfer is cut into qTDs.
#[derive(Clone, Copy, Debug)]
pub enum Cut {
    /// So many bytes that are asked, in qTDs of so many.
    Get(u32, u32),
    /// So many bytes that are sent, in qTDs of so many.
    Put(u32, u32),
    /// A control request with these setup bytes.
    Request([u8; 8]),
}

impl Cut {
    ghost use Rattle.drv_words.specs.Cuts.{stages_of, IsCut};

    /// How many qTDs it has: one at least.
    #[tactic(auto, using(std::proofs::lemmas::Grind::common_steps, crate::proofs::Stages::length_stages))]
    pub fn count(&self) -> u16
        requires { IsCut self.now }
        ensures count { result ≡ length (stages_of self.now) }
        ensures some { 1 ≤ result }
    {
        match self {
            Cut::Get(len, by) | Cut::Put(len, by) => piece_count(*len, *by),
            Cut::Request(setup) => { if data_length(setup) == 0 { 2 } else { 3 } }
        }
    }

    /// The qTD of this number, from 0.
    #[tactic(auto, using(std::proofs::lemmas::Grind::common_steps, crate::proofs::Stages::get_stage))]
    pub fn stage(&self, k: u16) -> Stage
        requires cut { IsCut self.now }
        requires within { k < length (stages_of self.now) }
        ensures stage { slice_get (stages_of self.now) k ≡ Some result }
        ensures pid { result.pid ≤ 2 }
        ensures long { result.long ≤ longest_qtd }
    {
        match self {
            Cut::Get(len, by) => asked(piece(*len, *by, k)),
            Cut::Put(len, by) => sent(piece(*len, *by, k)),
            Cut::Request(setup) => request_stage(setup, k),
        }
    }
}

/// How many qTDs of `by` bytes hold `len` bytes: one for none.
fn piece_count(len: u32, by: u32) -> u16
    requires len { len ≤ longest_qtd }
    requires some { 1 ≤ by }
    requires few { by ≤ longest_qtd }
    ensures count { result ≡ max 1 (pieces len by) }
    ensures some { 1 ≤ result }
{
    let count = (len + (by - 1)) / by;
    if count == 0 { 1 } else { count as u16 }
}

/// How many bytes the qTD of this number has.
fn piece(len: u32, by: u32, k: u16) -> u16
    requires len { len ≤ longest_qtd }
    requires few { by ≤ longest_qtd }
    ensures bytes { result ≡ min by (len - k * by) }
    ensures few { result ≤ longest_qtd }
{
    let rest = len.saturating_sub(k as u32 * by);
    by.min(rest) as u16
}

/// A qTD that asks for `n` bytes.
fn asked(n: u16) -> Stage
    ensures { result ≡ in_stage n }
{
    Stage {
        pid: 1,
        long: n,
        told: n,
        toggle: false,
        alternate: Alternate::Dummy,
    }
}

/// A qTD that sends `n` bytes.
fn sent(n: u16) -> Stage
    ensures { result ≡ out_stage n }
{
    Stage {
        pid: 0,
        long: n,
        told: n,
        toggle: false,
        alternate: Alternate::Nowhere,
    }
}

/// How many bytes the data stage of a request has (USB 2.0, 9.3.5).
fn data_length(setup: &[u8; 8]) -> u16
    ensures { result ≡ request_length setup.now }
{
    setup[6] as u16 + 256 * setup[7] as u16
}

/// Whether the data of a request go to the host (USB 2.0, 9.3.1).
fn data_to_host(setup: &[u8; 8]) -> bool
    ensures { result ≡ asks_in setup.now }
{
    128 <= setup[0]
}

/// The stage of this number of a request.
fn request_stage(setup: &[u8; 8], k: u16) -> Stage
    requires within { k < length (request_stages setup.now) }
    requires few { request_length setup.now ≤ longest_qtd }
    ensures stage { slice_get (request_stages setup.now) k ≡ Some result }
    ensures pid { result.pid ≤ 2 }
    ensures long { result.long ≤ longest_qtd }
{
    let n = data_length(setup);
    let to_host = data_to_host(setup);
    if k == 0 {
        return setup_of_request();
    }
    if n == 0 {
        return status_of_request(true);
    }
    if k == 1 {
        return data_of_request(to_host, n);
    }
    status_of_request(!to_host)
}

/// The SETUP stage.
fn setup_of_request() -> Stage
    ensures { result ≡ setup_stage }
{
    Stage {
        pid: 2,
        long: 8,
        told: 0,
        toggle: false,
        alternate: Alternate::Nowhere,
    }
}

/// The data stage: its first packet is DATA1.
fn data_of_request(to_host: bool, n: u16) -> Stage
    ensures { result ≡ data_stage to_host n }
{
    Stage {
        pid: if to_host { 1 } else { 0 },
        long: n,
        told: n,
        toggle: true,
        alternate: Alternate::Next,
    }
}

/// The status stage: an empty DATA1.
fn status_of_request(to_host: bool) -> Stage
    ensures { result ≡ status_stage to_host }
{
    Stage {
        pid: if to_host { 1 } else { 0 },
        long: 0,
        told: 0,
        toggle: true,
        alternate: Alternate::Nowhere,
    }
}
