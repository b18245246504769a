ghost use Rattle.std.specs.Prelude.{◌≡◌, ◌≤◌, ◌<◌, ◌+◌, nat_le, not, take, drop, filter, length, None, vec_len, vec_capacity};
ghost use Rattle.std.specs.List.{list_any, last_or, before_first, after_first, position_or_len, find};
ghost use Rattle.drv_chains.specs.Chains.{is_active};
ghost use Rattle.drv_members.specs.Ranks.{rank_of, is_between, is_named};
ghost use Rattle.drv_members.specs.Members.{IsRising, is_this, is_up_to, with_queue};

use crate::order::{rank_of_queue, stands_in_frame};
use crate::places::put_at;
use drv_chains::QueueHead;

/// How many of these queue heads, which stand by rank, have no higher rank than this.
pub(crate) fn up_to(queues: &[QueueHead], rank: u32) -> usize
    requires { IsRising rank_of queues.now }
    ensures front { take result queues.now ≡ filter (is_up_to rank) queues.now }
    ensures back { drop result queues.now ≡ filter (λ q. not (is_up_to rank q)) queues.now }
    ensures within { result ≤ length queues.now }
{
    queues.partition_point(|q| rank_of_queue(q) <= rank)
}

/// The last of the first `count` of these, where its rank isn't below `low`.
fn last_of(queues: &[QueueHead], count: usize, low: u32) -> Option<QueueHead>
    requires ranked { IsRising rank_of queues.now }
    requires within { count ≤ length queues.now }
    ensures { result ≡ last_or None (filter (λ q. nat_le low (rank_of q)) (take count queues.now)) }
{
    if count == 0 {
        return None;
    }
    let queue = queues[count - 1];
    if rank_of_queue(&queue) < low {
        return None;
    }
    Some(queue)
}

/// The last of these queue heads, which stand by rank, whose rank lies between these.
pub(crate) fn last_between(queues: &[QueueHead], low: u32, high: u32) -> Option<QueueHead>
    requires { IsRising rank_of queues.now }
    ensures { result ≡ last_or None (filter (is_between low high) queues.now) }
{
    last_of(queues, up_to(queues, high), low)
}

/// Those of these queue heads, which stand by rank, whose rank lies between these.
pub(crate) fn between(queues: &[QueueHead], low: u32, high: u32) -> &[QueueHead]
    requires { IsRising rank_of queues.now }
    ensures { result.now ≡ filter (is_between low high) queues.now }
{
    let front = &queues[..up_to(queues, high)];
    from_rank(front, low)
}

/// Those of these queue heads, which stand by rank, whose rank isn't below this.
fn from_rank(queues: &[QueueHead], low: u32) -> &[QueueHead]
    requires { IsRising rank_of queues.now }
    ensures { result.now ≡ filter (λ q. nat_le low (rank_of q)) queues.now }
{
    if low == 0 {
        return queues;
    }
    &queues[up_to(queues, low - 1)..]
}

/// The place of the first of these with this name, or else how many they are.
pub(crate) fn place_of(queues: &[QueueHead], id: u32) -> usize
    ensures place { result ≡ position_or_len (is_named id) queues.now }
    ensures within { result ≤ length queues.now }
{
    for place in 0..queues.len() {
        if queues[place].id == id {
            return place;
        }
    }
    queues.len()
}

/// The last of those ahead of the one with this name, where its rank isn't below `low`.
pub(crate) fn last_ahead(queues: &[QueueHead], id: u32, low: u32) -> Option<QueueHead>
    requires { IsRising rank_of queues.now }
    ensures { result ≡ last_or None (filter (λ q. nat_le low (rank_of q)) (before_first (is_named id) queues.now)) }
{
    last_of(queues, place_of(queues, id), low)
}

/// The first of these in this frame, from this place on.
pub(crate) fn first_from(queues: &[QueueHead], from: usize, frame: u16) -> Option<QueueHead>
    ensures { result ≡ find (is_active frame) (drop from queues.now) }
{
    for place in from..queues.len() {
        let queue = queues[place];
        if stands_in_frame(frame, &queue) {
            return Some(queue);
        }
    }
    None
}

/// Puts a queue head behind those of no higher rank.
pub(crate) fn put_queue(queues: &mut Vec<QueueHead>, queue: QueueHead)
    requires ranked { IsRising rank_of queues.old.items }
    requires room { vec_len queues.old < vec_capacity queues.old }
    ensures items { queues.new.items ≡ with_queue queues.old.items queue }
    ensures len { vec_len queues.new ≡ vec_len queues.old + 1 }
    ensures capacity { vec_capacity queues.old ≤ vec_capacity queues.new }
{
    let place = up_to(queues, rank_of_queue(&queue));
    put_at(queues, place, queue);
}

/// Takes out those with this name.
pub(crate) fn drop_queue(queues: &mut Vec<QueueHead>, id: u32)
    ensures items { queues.new.items ≡ filter (λ q. not (is_named id q)) queues.old.items }
    ensures len { vec_len queues.new ≤ vec_len queues.old }
    ensures capacity { vec_capacity queues.new ≡ vec_capacity queues.old }
{
    queues.retain(|q| q.id != id);
}

/// Whether one of these has this name.
pub(crate) fn has_name_in(queues: &[QueueHead], id: u32) -> bool
    ensures { result ≡ list_any (is_named id) queues.now }
{
    queues.iter().any(|queue| queue.id == id)
}

/// Whether this is one of these.
pub(crate) fn has(queues: &[QueueHead], queue: &QueueHead) -> bool
    ensures { result ≡ list_any (is_this queue.now) queues.now }
{
    let queue = *queue;
    queues.iter().any(|x| x.id == queue.id && x.period == queue.period && x.phase == queue.phase)
}
