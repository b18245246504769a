//! How many descriptors an endpoint has at a time.
ghost use Rattle.std.specs.Prelude.{◌≡◌};
ghost use Rattle.drv_table.specs.IsoOffers.{spans_too_long};

use drv_table::Endpoint;
use usb_base::limits::MOST_DESCRIPTORS;

/// The microframes of the frame list (EHCI 1.0, 3.1).
const LIST_SPAN: u32 = 8192;

/// Whether so many descriptors of this period are more than are outstanding at a time.
pub fn spans_too_long(all: u32, period: u16) -> bool
    ensures { (x : Endpoint) → x.desc.period ≡ period → result ≡ spans_too_long x all }
{
    if all > MOST_DESCRIPTORS {
        return true;
    }
    all * period as u32 > LIST_SPAN
}
