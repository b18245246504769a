ghost use Rattle.std.specs.Prelude.{◌≡◌, ◌≤◌, ◌*◌, true, false, IfSome, IfNone};
ghost use Rattle.bandwidth.specs.Placements.{has, is_classic};
ghost use Rattle.drv_periodic_table.specs.Descriptors.{slots_before, slots_in, slot_limit, is_in};
ghost use Rattle.drv_table.specs.IsoOffers.{slots_of, has_slots, total_of, smask_of, cmask_of};

use bandwidth::Placement;
use drv_table::{Endpoint, Slots};
use usb_base::{Speed, Way};

/// Whether a microframe stands in a mask.
pub(crate) fn has_bit(mask: u8, u: u8) -> bool
    requires { u ≤ 7 }
    ensures { result ≡ has mask u }
{
    (mask >> u) & 1 == 1
}

/// How many slots stand before a microframe.
#[tactic(auto, using(std::proofs::lemmas::Grind::common_steps, crate::proofs::Counting::none_before, crate::proofs::Counting::one_more))]
pub(crate) fn count_before(smask: u8, u: u8) -> u16
    requires { u ≤ 8 }
    ensures count { result ≡ slots_before smask u }
    ensures few { result ≤ u }
{
    let mut count = 0;
    for v in 0..u {
        if has_bit(smask, v) {
            count += 1;
        }
    }
    count
}

/// The bytes of a descriptor's buffer.
pub fn total_bytes(slots: &Slots) -> u16
    requires { slots.now.slot ≤ slot_limit slots.now.split }
    ensures total { result ≡ total_of slots.now }
    ensures few { result ≤ 24576 }
{
    if slots.split {
        return slots.slot;
    }
    count_before(slots.smask, 8) * slots.slot
}

/// Whether an endpoint sends to the host.
pub(crate) fn sends_to_host(way: Way) -> bool
    ensures { result ≡ is_in way }
{
    match way {
        Way::In => true,
        Way::Out | Way::Ctl => false,
    }
}

/// Whether a translator serves an endpoint of this speed.
fn is_split(speed: Speed) -> bool
    ensures { result ≡ is_classic speed }
{
    match speed {
        Speed::High => false,
        Speed::Full | Speed::Low => true,
    }
}

/// The most bytes of a slot: three packets of 1,024, and one of 1,023 behind a translator (USB 2.0, 5.6.3 and 5.9.2).
fn most_bytes(split: bool) -> u32
    ensures { result ≡ slot_limit split }
{
    if split { 1023 } else { 3072 }
}

/// The microframes of a placement, of a split transaction those of its start-splits.
fn smask(placement: &Option<Placement>) -> u8
    ensures { result ≡ smask_of placement.now }
{
    match placement {
        Some(placement) => placement.smask,
        None => 0,
    }
}

/// The microframes of the complete-splits of a placement.
fn cmask(placement: &Option<Placement>) -> u8
    ensures { result ≡ cmask_of placement.now }
{
    match placement {
        Some(placement) => placement.cmask,
        None => 0,
    }
}

/// The bytes of a slot.
fn bytes_of_slot(endpoint: &Endpoint, len: u16) -> u32
    ensures { result ≡ (slots_of endpoint.now len).slot }
{
    if sends_to_host(endpoint.desc.name.way) {
        return endpoint.desc.max as u32 * endpoint.desc.multi as u32;
    }
    len as u32
}

/// The slots of each descriptor of this endpoint, an OUT with so many bytes in each. None: they have more bytes than their packets can have,
/// or what the endpoint is doesn't fit the fields of a descriptor (EHCI 1.0, 3.3 and 3.4; USB 2.0, 5.6.3 and 5.9.2).
pub fn slots_of(endpoint: &Endpoint, len: u16) -> Option<Slots>
    ensures slots { IfSome result (λ s. s ≡ slots_of endpoint.now len) }
    ensures some { IfSome result (λ s. has_slots endpoint.now (slots_of endpoint.now len) ≡ true) }
    ensures none { IfNone result (has_slots endpoint.now (slots_of endpoint.now len) ≡ false) }
{
    let split = is_split(endpoint.desc.speed);
    let slot = bytes_of_slot(endpoint, len);
    if slot > most_bytes(split) {
        return None;
    }
    if endpoint.desc.max > 1024 || endpoint.desc.multi < 1 || endpoint.desc.multi > 3 {
        return None;
    }
    if endpoint.desc.port > 127 {
        return None;
    }
    Some(Slots {
        split,
        smask: smask(&endpoint.placement),
        cmask: cmask(&endpoint.placement),
        slot: slot as u16,
    })
}
