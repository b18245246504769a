ghost use Rattle.std.specs.Prelude.{◌≡◌, ◌≤◌, ◌<◌, ◌+◌, nat_eq, nat_le, not, take, drop, filter, length, None, vec_len, vec_capacity};
ghost use Rattle.std.specs.List.{list_any, last_or, before_first, position_or_len, find};
ghost use Rattle.drv_chains.specs.declared.members.Descriptor.{Descriptor as One};
ghost use Rattle.drv_members.specs.Ranks.{is_called};
ghost use Rattle.drv_members.specs.Members.{IsRising, is_that, frame_in, is_below, with_descriptor};

use crate::places::put_at;
use drv_chains::Descriptor;

/// How many of these descriptors, which stand by frame, have a lower frame than this.
pub(crate) fn below(descriptors: &[Descriptor], frame: u32) -> usize
    requires { IsRising frame_in descriptors.now }
    ensures front { take result descriptors.now ≡ filter (is_below frame) descriptors.now }
    ensures back { drop result descriptors.now ≡ filter (λ d. not (is_below frame d)) descriptors.now }
    ensures within { result ≤ length descriptors.now }
{
    descriptors.partition_point(|d| (d.frame as u32) < frame)
}

/// The last of the first `count` of these, where its frame isn't below `low`.
fn last_of(descriptors: &[Descriptor], count: usize, low: u16) -> Option<Descriptor>
    requires framed { IsRising frame_in descriptors.now }
    requires within { count ≤ length descriptors.now }
    ensures { result ≡ last_or None (filter (λ (d : One). nat_le low d.frame) (take count descriptors.now)) }
{
    if count == 0 {
        return None;
    }
    let descriptor = descriptors[count - 1];
    if descriptor.frame < low {
        return None;
    }
    Some(descriptor)
}

/// The last of these descriptors, which stand by frame, that has this one.
pub(crate) fn last_in(descriptors: &[Descriptor], frame: u16) -> Option<Descriptor>
    requires { IsRising frame_in descriptors.now }
    ensures { result ≡ last_or None (filter (λ (d : One). nat_eq d.frame frame) descriptors.now) }
{
    last_of(descriptors, below(descriptors, frame as u32 + 1), frame)
}

/// The place of the first of these with this name, or else how many they are.
pub(crate) fn place_of(descriptors: &[Descriptor], id: u32) -> usize
    ensures place { result ≡ position_or_len (is_called id) descriptors.now }
    ensures within { result ≤ length descriptors.now }
{
    for place in 0..descriptors.len() {
        if descriptors[place].id == id {
            return place;
        }
    }
    descriptors.len()
}

/// The last of those ahead of the one with this name, where its frame isn't below `low`.
pub(crate) fn last_ahead(descriptors: &[Descriptor], id: u32, low: u16) -> Option<Descriptor>
    requires { IsRising frame_in descriptors.now }
    ensures { result ≡ last_or None (filter (λ (d : One). nat_le low d.frame) (before_first (is_called id) descriptors.now)) }
{
    last_of(descriptors, place_of(descriptors, id), low)
}

/// The descriptor at this place, where it is in this frame.
pub(crate) fn at_place_in(
    descriptors: &[Descriptor],
    place: usize,
    frame: u16,
) -> Option<Descriptor>
    ensures { result ≡ find (λ (d : One). nat_eq d.frame frame) (take 1 (drop place descriptors.now)) }
{
    if place >= descriptors.len() {
        return None;
    }
    let descriptor = descriptors[place];
    if descriptor.frame != frame {
        return None;
    }
    Some(descriptor)
}

/// Puts a descriptor ahead of those of no lower frame.
pub(crate) fn put_descriptor(descriptors: &mut Vec<Descriptor>, descriptor: Descriptor)
    requires framed { IsRising frame_in descriptors.old.items }
    requires room { vec_len descriptors.old < vec_capacity descriptors.old }
    ensures items { descriptors.new.items ≡ with_descriptor descriptors.old.items descriptor }
    ensures len { vec_len descriptors.new ≡ vec_len descriptors.old + 1 }
    ensures capacity { vec_capacity descriptors.old ≤ vec_capacity descriptors.new }
{
    let place = below(descriptors, descriptor.frame as u32);
    put_at(descriptors, place, descriptor);
}

/// Takes out those with this name.
pub(crate) fn drop_descriptor(descriptors: &mut Vec<Descriptor>, id: u32)
    ensures items { descriptors.new.items ≡ filter (λ d. not (is_called id d)) descriptors.old.items }
    ensures len { vec_len descriptors.new ≤ vec_len descriptors.old }
    ensures capacity { vec_capacity descriptors.new ≡ vec_capacity descriptors.old }
{
    descriptors.retain(|d| d.id != id);
}

/// Whether one of these has this name.
pub(crate) fn has_name_in(descriptors: &[Descriptor], id: u32) -> bool
    ensures { result ≡ list_any (is_called id) descriptors.now }
{
    descriptors.iter().any(|descriptor| descriptor.id == id)
}

/// Whether this is one of these.
pub(crate) fn has(descriptors: &[Descriptor], descriptor: &Descriptor) -> bool
    ensures { result ≡ list_any (is_that descriptor.now) descriptors.now }
{
    let descriptor = *descriptor;
    descriptors
        .iter()
        .any(|x| x.id == descriptor.id && x.frame == descriptor.frame)
}
