ghost use Rattle.std.specs.Prelude.{◌≡◌, true, Some, None, ◌∷◌, []};
ghost use Rattle.link_words.specs.Layout.{is_sound};
ghost use Rattle.itd_sitd.specs.Itd.{itd_layout, itd_bad};
ghost use Rattle.itd_sitd.specs.Sitd.{sitd_layout, sitd_bad};

/// The tables of isochronous descriptors (EHCI 1.0, 3.3 and 3.4): each bit of each word stands in one row, and the first
/// reserved bit of some words, computed.
#[tactic(auto, unfolding(link_words::specs::Layout::first_bad_bit, crate::specs::Itd::itd_bad, crate::specs::Sitd::sitd_bad))]
pub fn worked_layouts()
    ensures itd_sound { is_sound itd_layout ≡ true }
    ensures sitd_sound { is_sound sitd_layout ≡ true }

    // One transaction in a microframe; none is reserved, and with it an earlier page past the seventh.
    ensures one { itd_bad (1 ∷ 0 ∷ 0 ∷ 0 ∷ 0 ∷ 0 ∷ 0 ∷ 0 ∷ 0 ∷ 0 ∷ 0 ∷ 1 ∷ 0 ∷ 0 ∷ 0 ∷ 0 ∷ []) ≡ None }
    ensures none { itd_bad (1 ∷ 0 ∷ 0 ∷ 0 ∷ 0 ∷ 0 ∷ 0 ∷ 0 ∷ 0 ∷ 0 ∷ 0 ∷ 0 ∷ 0 ∷ 0 ∷ 0 ∷ 0 ∷ []) ≡ Some (record { word = 11; bit = 0 }) }
    ensures page { itd_bad (1 ∷ 0 ∷ 0 ∷ 0 ∷ 0 ∷ 0x7000 ∷ 0 ∷ 0 ∷ 0 ∷ 0 ∷ 0 ∷ 0 ∷ 0 ∷ 0 ∷ 0 ∷ 0 ∷ []) ≡ Some (record { word = 5; bit = 12 }) }
    ensures empty { sitd_bad (1 ∷ 0 ∷ 0 ∷ 0 ∷ 0 ∷ 0 ∷ 1 ∷ []) ≡ None }
    ensures status { sitd_bad (1 ∷ 0 ∷ 0 ∷ 0x3C000001 ∷ 0 ∷ 0xFE0 ∷ 1 ∷ []) ≡ Some (record { word = 3; bit = 0 }) }
{}
