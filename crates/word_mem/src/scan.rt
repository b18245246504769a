ghost use Rattle.std.specs.Prelude.{◌≡◌, ◌≢◌, ◌+◌, ◌%◌, ◌<◌, ◌≤◌, length, slice_get, Some, MatchOption, IfSome};
ghost use Rattle.word_mem.specs.Free.{HasNoFreeRun, IsLowest, IsLongest};

use crate::blocks::BlockState;

/// How many blocks a page has.
const PAGE: usize = 128;

/// The length of the longest Free run that ends with `block`, where `before` is that of the longest that ends right before it: a run
/// goes on within its page alone.
fn free_tail(states: &[BlockState], block: usize, before: usize) -> usize
    requires inside { block < length states.now }
    requires short { before ≤ block }
    ensures goes_on { slice_get states.now block ≡ Some BlockState.Free → block % 128 ≢ 0 → result ≡ before + 1 }
    ensures begins { slice_get states.now block ≡ Some BlockState.Free → block % 128 ≡ 0 → result ≡ 1 }
    ensures ends { slice_get states.now block ≢ Some BlockState.Free → result ≡ 0 }
    ensures step { result ≤ before + 1 }
{
    match states[block] {
        BlockState::Free => { if block % PAGE == 0 { 1 } else { before + 1 } }
        BlockState::Kept | BlockState::Lent => 0,
    }
}

/// The lowest block from which `n` Free blocks of one page follow.
pub(crate) fn lowest_free_run(states: &[BlockState], n: usize) -> Option<usize>
    requires { 1 ≤ n }
    ensures place { MatchOption result (HasNoFreeRun states.now n) (IsLowest states.now n) }
    ensures within { IfSome result (λ first. first + n ≤ length states.now) }
{
    let mut tail = 0;
    for block in 0..states.len() {
        tail = free_tail(states, block, tail);
        if tail == n {
            return Some(block + 1 - n);
        }
    }
    None
}

/// The length of the longest run of Free blocks of one page.
pub(crate) fn longest_free_run(states: &[BlockState]) -> usize
    ensures { IsLongest states.now result }
{
    let mut tail = 0;
    let mut best = 0;
    for block in 0..states.len() {
        tail = free_tail(states, block, tail);
        if best < tail {
            best = tail;
        }
    }
    best
}
