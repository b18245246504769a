ghost use Rattle.std.specs.Prelude.{◌≡◌, ◌+◌, ◌*◌, ◌<◌};
ghost use Rattle.hub_ports.specs.Requests.{fields_of, class_request, length_of, set_feature, clear_feature, buffer_kind, buffer_direction, buffer_key, at_port, change_at, translators_of, clear_at, request_by, request_of_fields, request_of as request_of_setup};

use crate::rows::{ClassRequest, HubRequest, PortChange};
use hub_keys::Key;
use usb_base::{DevAddr, Dir, EpKind, EpNum};

/// The fields of a request (USB 2.0, 9.3).
#[derive(Clone, Copy, Debug, PartialEq, Eq)]
pub struct SetupFields {
    /// bmRequestType.
    pub kind: u8,
    /// bRequest.
    pub request: u8,
    /// wValue.
    pub value: u16,
    /// wIndex.
    pub index: u16,
    /// wLength, in bytes.
    pub length: u16,
}

fn word(low: u8, high: u8) -> u16
    ensures { result ≡ low + 256 * high }
{
    low as u16 + 256 * high as u16
}

fn fields(setup: &[u8; 8]) -> SetupFields
    ensures { result ≡ fields_of setup.now }
{
    SetupFields {
        kind: setup[0],
        request: setup[1],
        value: word(setup[2], setup[3]),
        index: word(setup[4], setup[5]),
        length: word(setup[6], setup[7]),
    }
}

fn class_request(kind: u8, request: u8) -> Option<ClassRequest>
    ensures { result ≡ class_request kind request }
{
    match (kind, request) {
        (0xa0, 0) => Some(ClassRequest::GetHubStatus),
        (0xa3, 0) => Some(ClassRequest::GetPortStatus),
        (0x23, 3) => Some(ClassRequest::SetPortFeature),
        (0x23, 1) => Some(ClassRequest::ClearPortFeature),
        (0x23, 8) => Some(ClassRequest::ClearTtBuffer),
        (0x23, 9) => Some(ClassRequest::ResetTt),
        _ => None,
    }
}

fn length(request: ClassRequest) -> u16
    ensures { result ≡ length_of request }
{
    match request {
        ClassRequest::GetHubStatus | ClassRequest::GetPortStatus => 4,
        _ => 0,
    }
}

fn set_feature(feature: u16) -> Option<PortChange>
    ensures { result ≡ set_feature feature }
{
    match feature {
        8 => Some(PortChange::PowerOn),
        4 => Some(PortChange::Reset),
        _ => None,
    }
}

fn clear_feature(feature: u16) -> Option<PortChange>
    ensures { result ≡ clear_feature feature }
{
    match feature {
        1 => Some(PortChange::Disable),
        8 => Some(PortChange::PowerOff),
        16 => Some(PortChange::ForgetConnection),
        17 => Some(PortChange::ForgetEnable),
        20 => Some(PortChange::ForgetReset),
        _ => None,
    }
}

fn buffer_kind(bits: u16) -> Option<EpKind>
    ensures { result ≡ buffer_kind bits }
{
    match bits {
        0 => Some(EpKind::Control),
        2 => Some(EpKind::Bulk),
        _ => None,
    }
}

fn buffer_direction(bit: u16) -> Dir
    ensures { result ≡ buffer_direction bit }
{
    if bit == 0 { Dir::Out } else { Dir::In }
}

fn buffer_key(value: u16) -> Option<Key>
    ensures { result ≡ buffer_key value }
{
    if value / 8192 % 4 != 0 {
        return None;
    }
    let Some(kind) = buffer_kind(value / 2048 % 4) else {
        return None;
    };
    match (
        DevAddr::new((value / 16 % 128) as u8),
        EpNum::new((value % 16) as u8),
    ) {
        (Some(addr), Some(ep)) => Some(Key {
            addr,
            ep,
            dir: buffer_direction(value / 32768),
            kind,
        }),
        _ => unreachable!(),
    }
}

fn at_port(ports: u16, index: u16, request: HubRequest) -> Option<HubRequest>
    ensures { result ≡ at_port ports index request }
{
    if 1 <= index && index <= ports {
        Some(request)
    } else {
        None
    }
}

fn change_at(ports: u16, index: u16, change: Option<PortChange>) -> Option<HubRequest>
    ensures { result ≡ change_at ports index change }
{
    match change {
        Some(change) => at_port(ports, index, HubRequest::ChangePort(index, change)),
        None => None,
    }
}

/// How many translators a hub with so many ports has.
fn translators(multi: bool, ports: u16) -> u16
    ensures { result ≡ translators_of multi ports }
{
    if multi { ports } else { 1 }
}

fn clear_at(translators: u16, index: u16, key: Option<Key>) -> Option<HubRequest>
    ensures { result ≡ clear_at translators index key }
{
    match key {
        Some(key) => at_port(translators, index, HubRequest::ClearBuffer(index, key)),
        None => None,
    }
}

fn request_by(
    request: ClassRequest,
    multi: bool,
    ports: u16,
    value: u16,
    index: u16,
) -> Option<HubRequest>
    ensures { result ≡ request_by request multi ports value index }
{
    match request {
        ClassRequest::GetHubStatus => match (value, index) {
            (0, 0) => Some(HubRequest::HubStatus),
            _ => None,
        },
        ClassRequest::GetPortStatus => match value {
            0 => at_port(ports, index, HubRequest::PortStatus(index)),
            _ => None,
        },
        ClassRequest::SetPortFeature => change_at(ports, index, set_feature(value)),
        ClassRequest::ClearPortFeature => change_at(ports, index, clear_feature(value)),
        ClassRequest::ClearTtBuffer => {
            clear_at(translators(multi, ports), index, buffer_key(value))
        }
        ClassRequest::ResetTt => match value {
            0 => at_port(
                translators(multi, ports),
                index,
                HubRequest::ResetTranslator(index),
            ),
            _ => None,
        },
    }
}

fn request_of_fields(multi: bool, ports: u16, fields: SetupFields) -> Option<HubRequest>
    ensures { result ≡ request_of_fields multi ports fields }
{
    let Some(request) = class_request(fields.kind, fields.request) else {
        return None;
    };
    if fields.length != length(request) {
        return None;
    }
    request_by(request, multi, ports, fields.value, fields.index)
}

/// The request of eight setup bytes to a hub with so many ports, which has a translator for each of them (`multi`) or one for
/// all; `None` exactly where it knows none such, and stalls.
pub fn request_of(multi: bool, ports: u16, setup: &[u8; 8]) -> Option<HubRequest>
    ensures { result ≡ request_of_setup multi ports setup.now }
{
    request_of_fields(multi, ports, fields(setup))
}
