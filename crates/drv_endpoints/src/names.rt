//! Endpoints by their names.
ghost use Rattle.std.specs.Prelude.{◌≡◌, ◌<◌, length, position, IfSome};
ghost use Rattle.drv_table.specs.DriverContent.{is_same_name, is_same_way};

use drv_table::Endpoint;
use usb_base::{EpName, Way};

/// The number of the endpoint with this name.
pub fn find(endpoints: &[Endpoint], name: &EpName) -> Option<usize>
    ensures place { result ≡ position (λ x. is_same_name x.desc.name name.now) endpoints.now }
    ensures within { IfSome result (λ e. e < length endpoints.now) }
{
    endpoints
        .iter()
        .position(|endpoint| has_same_name(&endpoint.desc.name, name))
}

/// Whether the names are the same.
fn has_same_name(a: &EpName, b: &EpName) -> bool
    ensures { result ≡ is_same_name a.now b.now }
{
    a.addr.get() == b.addr.get() && a.num.get() == b.num.get() && goes_same_way(a.way, b.way)
}

/// Whether the ways are the same.
pub fn goes_same_way(a: Way, b: Way) -> bool
    ensures { result ≡ is_same_way a b }
{
    match (a, b) {
        (Way::In, Way::In) | (Way::Out, Way::Out) | (Way::Ctl, Way::Ctl) => true,
        _ => false,
    }
}
