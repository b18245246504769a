ghost use Rattle.std.specs.Prelude.{◌≡◌, ◌+◌, ◌≤◌, ◌++◌, length, drop, vec_capacity};

/// The first `n` bytes go; the others move to the front.
#[tactic(auto, using(crate::proofs::Lists::moved_to_front))]
pub(crate) fn drop_front(bytes: &mut Vec<u8>, n: usize)
    requires { n ≤ length bytes.old.items }
    ensures items { bytes.new.items ≡ drop n bytes.old.items }
    ensures len { length bytes.new.items + n ≡ length bytes.old.items }
    ensures capacity { vec_capacity bytes.new ≡ vec_capacity bytes.old }
{
    let left = bytes.len() - n;
    bytes.copy_within(n.., 0);
    bytes.truncate(left);
}

/// The bytes of `begun` and behind them those of `new` stay from place `at` on, in the room that is there.
#[tactic(auto, using(crate::proofs::Lists::behind_the_first, crate::proofs::Lists::before_the_last))]
pub(crate) fn keep_from(begun: &mut Vec<u8>, at: usize, new: &[u8])
    requires within { at ≤ length begun.old.items + length new.now }
    requires room { length begun.old.items + length new.now ≤ at + vec_capacity begun.old }
    ensures items { begun.new.items ≡ drop at (begun.old.items ++ new.now) }
    ensures capacity { vec_capacity begun.old ≤ vec_capacity begun.new }
{
    let first = begun.len();
    if first < at {
        begun.clear();
        let _fits = begun.extend_from_slice(&new[at - first..]);
        return;
    }
    drop_front(begun, at);
    let _fits = begun.extend_from_slice(new);
}
