ghost use Rattle.std.specs.Prelude.{◌≡◌};
ghost use Rattle.drv_table.specs.Words.{is_high};
ghost use Rattle.drv_jobs.specs.HubRequests.{hub_zero, type_bits, way_bit, clear_value, clear_setup};

use usb_base::{DevAddr, EpDesc, EpKind, EpName, EpNum, Speed, Way};

/// Whether this is high speed (USB 2.0, 4.2.1).
pub(crate) fn is_high_speed(speed: Speed) -> bool
    ensures { result ≡ is_high speed }
{
    match speed {
        Speed::High => true,
        Speed::Full | Speed::Low => false,
    }
}

/// Endpoint 0 of the hub of an endpoint.
pub(crate) fn hub_zero(desc: &EpDesc) -> EpName
    ensures { result ≡ hub_zero desc.now }
{
    let addr = match desc.hub {
        Some(hub) => hub,
        None => DevAddr::zero(),
    };
    EpName {
        addr,
        num: EpNum::zero(),
        way: Way::Ctl,
    }
}

/// The type of the endpoint, in bits 12:11 of wValue.
fn type_bits(kind: EpKind) -> u16
    ensures { result ≡ type_bits kind }
{
    match kind {
        EpKind::Control => 0,
        EpKind::Iso => 1,
        EpKind::Bulk => 2,
        EpKind::Interrupt => 3,
    }
}

/// Bit 15 of wValue: the endpoint is an IN.
fn way_bit(way: Way) -> u16
    ensures { result ≡ way_bit way }
{
    match way {
        Way::In => 1,
        Way::Out | Way::Ctl => 0,
    }
}

/// wValue of CLEAR_TT_BUFFER (USB 2.0, 11.24.2.3).
fn clear_value(desc: &EpDesc) -> u16
    ensures { result ≡ clear_value desc.now }
{
    let place = desc.name.num.get() as u16 + 16 * desc.name.addr.get() as u16;
    place + 2048 * type_bits(desc.kind) + 32768 * way_bit(desc.name.way)
}

/// The setup bytes of the request that empties the buffer of the endpoint in its translator (USB 2.0, 11.24.2.3).
pub(crate) fn clear_setup(desc: &EpDesc) -> [u8; 8]
    ensures { result ≡ clear_setup desc.now }
{
    let value = clear_value(desc);
    [
        0x23,
        8,
        (value % 256) as u8,
        (value / 256) as u8,
        desc.tt.max(1),
        0,
        0,
        0,
    ]
}
