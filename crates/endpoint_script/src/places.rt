ghost use Rattle.std.specs.Prelude.{◌≡◌, ℕ, ◌<◌, List, position, slice_get, Some};
ghost use Rattle.endpoint_script.specs.declared.endpoint.Endpoint.{Endpoint as EndpointContent};
ghost use Rattle.endpoint_script.specs.Device.{is_named, place_named, place_for, or_else};
ghost use Rattle.endpoint_script.specs.Places.{IsIndex, ArePlaces};

use crate::endpoint::Endpoint;
use dev_control::StageToken;
use usb_base::{EpNum, Way};

/// Where the endpoint of this number and way stands.
fn place_named(endpoints: &[Endpoint], num: EpNum, way: Way) -> Option<usize>
    ensures { result ≡ place_named endpoints.now num way }
{
    endpoints
        .iter()
        .position(|endpoint| endpoint.is_named(num, way))
}

/// For each number where its endpoint of this way stands.
fn index_of(endpoints: &[Endpoint], way: Way) -> [Option<usize>; 16]
    ensures { IsIndex endpoints.now way result }
{
    let mut index = [None; 16];
    for num in 0..16u8 {
        if let Some(number) = EpNum::new(num) {
            index[num as usize] = place_named(endpoints, number, way);
        }
    }
    index
}

/// Where the endpoints of a device stand among them, by number, 0 to 15, for each way.
#[derive(Clone, Copy, Debug, PartialEq, Eq)]
pub struct Places {
    pub ins: [Option<usize>; 16],
    pub outs: [Option<usize>; 16],
    pub controls: [Option<usize>; 16],
}

impl Places {
    /// Where these endpoints stand.
    pub fn of(endpoints: &[Endpoint]) -> Places
        ensures { ArePlaces endpoints.now result }
    {
        Places {
            ins: index_of(endpoints, Way::In),
            outs: index_of(endpoints, Way::Out),
            controls: index_of(endpoints, Way::Ctl),
        }
    }

    /// Where the endpoint of this number and way stands.
    pub fn named(&self, num: EpNum, way: Way) -> Option<usize>
        ensures { (es : List EndpointContent) → ArePlaces es self.now → result ≡ place_named es num way }
    {
        let num = num.get() as usize;
        match way {
            Way::In => self.ins[num],
            Way::Out => self.outs[num],
            Way::Ctl => self.controls[num],
        }
    }

    /// Where the endpoint stands that a token with this number is for.
    pub fn place_for(&self, token: StageToken, num: EpNum) -> Option<usize>
        ensures { (es : List EndpointContent) → ArePlaces es self.now → result ≡ place_for token es num }
    {
        match token {
            StageToken::Setup => self.named(num, Way::Ctl),
            StageToken::In => self.named(num, Way::In).or(self.named(num, Way::Ctl)),
            StageToken::Out | StageToken::Ping => self
                .named(num, Way::Out)
                .or(self.named(num, Way::Ctl)),
            StageToken::Other => None,
        }
    }
}
