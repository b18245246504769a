ghost use Rattle.std.specs.Prelude.{◌≡◌, ◌+◌, ◌*◌, ◌≤◌, length};
ghost use Rattle.word_mem.specs.Memory.{filled};
ghost use Rattle.word_mem.specs.Views.{words_in, with_words_in};

/// Writes `x` into `n` places from `first` on.
pub(crate) fn overwrite<T: Copy>(items: &mut [T], first: usize, n: usize, x: T)
    requires { first + n ≤ length items.old }
    ensures { items.new ≡ filled items.old first n x }
{
    for place in first..first + n {
        items[place] = x;
    }
}

/// Copies the words from place `first` on into all of `into`.
#[tactic(auto, using(crate::proofs::Words::copied_out))]
pub(crate) fn copy_out(words: &[u32], first: usize, into: &mut [u32])
    requires { first + length into.old ≤ length words.now }
    ensures { into.new ≡ words_in words.now (4 * first) (length into.old) }
{
    into.copy_from_slice(&words[first..first + into.len()]);
}

/// Copies `from` over the words from place `first` on.
#[tactic(auto, using(crate::proofs::Words::copied_in))]
pub(crate) fn copy_in(words: &mut [u32], first: usize, from: &[u32])
    requires { first + length from.now ≤ length words.old }
    ensures { words.new ≡ with_words_in words.old (4 * first) from.now }
{
    words[first..first + from.len()].copy_from_slice(from);
}
