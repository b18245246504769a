//! Control requests through the two buffers of a translator, one for each direction.
ghost use Rattle.std.specs.Prelude.{ℕ, Bool, List};
ghost use Rattle.law_translated.specs.Requests.{KeepsWindow, WindowIsRight};
ghost use Rattle.law_translated.specs.Reads.{KeepsRead, ReadIsRight};
ghost use Rattle.law_translated.specs.Writes.{KeepsWrite, WriteIsRight};

/// The device of a request without data acts at most once, and once where the request is done.
pub fn a_request_is_acted_on_once()
    ensures keeps { KeepsWindow }
    ensures right { WindowIsRight }
{}

/// The device of a read acts at most once, and once where it is done; the host has all data there, and the first of them before.
pub fn a_read_is_whole()
    ensures keeps { (packets : List (List ℕ)) → (short : List ℕ → Bool) → KeepsRead packets short }
    ensures right { (packets : List (List ℕ)) → (short : List ℕ → Bool) → ReadIsRight packets short }
{}

/// The device of a write acts at most once, and once where it is done; it took all data there, and the first of them before.
pub fn a_write_is_whole()
    ensures keeps { (packets : List (List ℕ)) → KeepsWrite packets }
    ensures right { (packets : List (List ℕ)) → WriteIsRight packets }
{}
