ghost use Rattle.std.specs.Prelude.{◌≡◌, ◌++◌, IfOk, OnOk, IsTrue, map, filter_map};
ghost use Rattle.std.specs.List.{list_all};
ghost use Rattle.std.specs.Option.{option_copied};
ghost use Rattle.endpoint_script.specs.Device.{opening, is_scripted};
ghost use Rattle.hub_class.specs.HubContent as Hubs;
ghost use Rattle.hub_class.specs.HubContent.{has_few_ports};
ghost use Rattle.bus_wire.specs.Fixed.{AreNumbers};
ghost use Rattle.bus_wire.specs.Seats.{owner_at, seat_at, seats_from, hub_name, hub_seat, hub_seats_from, seat_named, device_seats, seats_of};

use crate::numbers::{Numbers, are_same_names};
use crate::seats::{Owner, Seat};
use endpoint_script::Device;
use hub_class::Hub;
use script_types::{DeviceText, EpText, FateText, HubText, Script};
use std::alloc::Global;
use usb_base::{DevAddr, EpDesc, EpKind, EpName, EpNum, Memory, Way};

/// Whose endpoint this is, of the device at a place.
fn owner(device: usize, ep: &EpText) -> Owner
    ensures { result ≡ owner_at device ep.now.desc.hub ep.now.desc.port ep.now.stuff }
{
    match ep.desc.hub {
        None => Owner::High(device),
        Some(hub) => Owner::Below {
            device,
            hub,
            port: ep.desc.port,
            stuff: ep.stuff,
        },
    }
}

fn seat_endpoints(seats: &mut Vec<Seat>, device: usize, eps: &[EpText]) -> Result<(), Memory>
    ensures { OnOk result (seats.new.items ≡ seats.old.items ++ map (seat_at device) eps.now) }
{
    for ep in eps {
        let seat = Seat {
            name: ep.desc.name,
            kind: ep.desc.kind,
            owner: owner(device, ep),
        };
        if seats.push(seat).is_err() {
            return Err(Memory);
        }
    }
    Ok(())
}

/// The endpoints of these devices, in the order of the devices and of the lines of each.
fn seats_by_device(alloc: Global, devices: &[DeviceText]) -> Result<Vec<Seat>, Memory>
    ensures { IfOk result (λ v. v.items ≡ seats_from 0 devices.now) }
{
    let mut seats = Vec::new(alloc);
    for (device, text) in devices.iter().enumerate() {
        seat_endpoints(&mut seats, device, text.eps.as_slice())?;
    }
    Ok(seats)
}

/// The endpoint with this name.
fn seat_named<'a>(seats: &'a [Seat], name: &EpName) -> Option<&'a Seat>
    ensures { option_copied result ≡ seat_named seats.now name.now }
{
    seats.iter().find(|seat| are_same_names(&seat.name, name))
}

/// The endpoints with these names.
fn seats_in_order(alloc: Global, seats: &[Seat], names: &[EpName]) -> Result<Vec<Seat>, Memory>
    ensures { IfOk result (λ v. v.items ≡ filter_map (seat_named seats.now) names.now) }
{
    let mut named = Vec::new(alloc);
    for name in names {
        let Some(seat) = seat_named(seats, name) else {
            continue;
        };
        if named.push(*seat).is_err() {
            return Err(Memory);
        }
    }
    Ok(named)
}

/// The endpoints of the devices of a script, in the order of their lines.
fn device_seats(alloc: Global, script: &Script) -> Result<Vec<Seat>, Memory>
    ensures { IfOk result (λ v. v.items ≡ device_seats script.now) }
{
    let seats = seats_by_device(alloc, script.devices.as_slice())?;
    seats_in_order(alloc, seats.as_slice(), script.endpoints.as_slice())
}

/// The name of endpoint 0 of a hub.
fn hub_name(addr: DevAddr) -> EpName
    ensures { result ≡ hub_name addr }
{
    match EpNum::new(0) {
        Some(num) => EpName {
            addr,
            num,
            way: Way::Ctl,
        },
        None => unreachable!(),
    }
}

/// Endpoint 0 of each hub.
fn hub_seats(alloc: Global, hubs: &[HubText]) -> Result<Vec<Seat>, Memory>
    ensures { IfOk result (λ v. v.items ≡ hub_seats_from 0 hubs.now) }
{
    let mut seats = Vec::new(alloc);
    for (place, hub) in hubs.iter().enumerate() {
        let seat = Seat {
            name: hub_name(hub.addr),
            kind: EpKind::Control,
            owner: Owner::Hub(place),
        };
        if seats.push(seat).is_err() {
            return Err(Memory);
        }
    }
    Ok(seats)
}

/// The endpoints of a script: endpoint 0 of each hub, then those of the devices in the order of their lines.
pub fn seats_of(alloc: Global, script: &Script) -> Result<Vec<Seat>, Memory>
    ensures { IfOk result (λ v. v.items ≡ seats_of script.now) }
{
    let mut seats = hub_seats(alloc, script.hubs.as_slice())?;
    let devices = device_seats(alloc, script)?;
    if seats.extend_from_slice(devices.as_slice()).is_err() {
        return Err(Memory);
    }
    Ok(seats)
}

/// The numbers of the packets of each endpoint that don't get through, on the bus below a translator or on the high-speed bus.
pub fn numbers_of(
    alloc: Global,
    fates: &[FateText],
    below: bool,
    seats: &[Seat],
) -> Result<Vec<Numbers>, Memory>
    ensures { IfOk result (λ v. AreNumbers fates.now below seats.now v.items) }
{
    let mut numbers = Vec::new(alloc);
    for seat in seats {
        let unheard = Numbers::of(alloc, fates, &seat.name, below)?;
        if numbers.push(unheard).is_err() {
            return Err(Memory);
        }
    }
    Ok(numbers)
}

/// The devices that these texts describe.
pub fn devices_of(alloc: Global, texts: &[DeviceText]) -> Result<Vec<Device>, Memory>
    requires { IsTrue (list_all is_scripted texts.now) }
    ensures { IfOk result (λ v. v.items ≡ map opening texts.now) }
{
    let mut devices = Vec::new(alloc);
    for text in texts {
        let device = Device::build(alloc, text)?;
        if devices.push(device).is_err() {
            return Err(Memory);
        }
    }
    Ok(devices)
}

/// The hubs that these texts describe.
pub fn hubs_of(alloc: Global, texts: &[HubText]) -> Result<Vec<Hub>, Memory>
    requires { IsTrue (list_all has_few_ports texts.now) }
    ensures { IfOk result (λ v. v.items ≡ map Hubs.opening texts.now) }
{
    let mut hubs = Vec::new(alloc);
    for text in texts {
        let hub = Hub::build(alloc, text)?;
        if hubs.push(hub).is_err() {
            return Err(Memory);
        }
    }
    Ok(hubs)
}
