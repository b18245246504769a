ghost use Rattle.std.specs.Prelude.{◌≡◌, true, Some, None, Ok, Err, ◌∷◌, []};
ghost use Rattle.link_words.specs.Layout.{is_sound};
ghost use Rattle.qh_qtd.specs.Qtd.{qtd_layout, qtd_bad};
ghost use Rattle.qh_qtd.specs.QueueHead.{qh_layout, qh_bad};

/// The tables of queue heads and of their descriptors (EHCI 1.0, 3.5 and 3.6): each bit of each word stands in one row,
/// and the first reserved bit of some words, computed.
#[tactic(auto, unfolding(link_words::specs::Layout::first_bad_bit, crate::specs::Qtd::qtd_bad, crate::specs::QueueHead::qh_bad))]
pub fn worked_layouts()
    ensures qtd_sound { is_sound qtd_layout ≡ true }
    ensures qh_sound { is_sound qh_layout ≡ true }

    // The head of an empty ring.
    ensures head { qh_bad (0x1002 ∷ 0x40A000 ∷ 0x40000000 ∷ 0 ∷ 1 ∷ 1 ∷ 0x40 ∷ 0 ∷ 0 ∷ 0 ∷ 0 ∷ 0 ∷ []) ≡ None }

    // A reserved PID code, and with it a reserved bit of the word before it, and a reserved speed.
    ensures pid { qtd_bad (1 ∷ 1 ∷ 0x300 ∷ 0 ∷ 0 ∷ 0 ∷ 0 ∷ 0 ∷ []) ≡ Some (record { word = 2; bit = 8 }) }
    ensures earlier { qtd_bad (1 ∷ 0x11 ∷ 0x300 ∷ 0 ∷ 0 ∷ 0 ∷ 0 ∷ 0 ∷ []) ≡ Some (record { word = 1; bit = 4 }) }
    ensures speed { qh_bad (0 ∷ 0x3003 ∷ 0 ∷ 0 ∷ 0 ∷ 0 ∷ 0 ∷ 0 ∷ 0 ∷ 0 ∷ 0 ∷ 0 ∷ []) ≡ Some (record { word = 1; bit = 12 }) }
    ensures packet { qh_bad (0 ∷ 0x4012003 ∷ 0 ∷ 0 ∷ 0 ∷ 0 ∷ 0 ∷ 0 ∷ 0 ∷ 0 ∷ 0 ∷ 0 ∷ []) ≡ Some (record { word = 1; bit = 16 }) }
    ensures progress { qh_bad (0 ∷ 0 ∷ 0 ∷ 0 ∷ 0 ∷ 0 ∷ 0 ∷ 0 ∷ 0xF00 ∷ 0 ∷ 0 ∷ 0 ∷ []) ≡ Some (record { word = 8; bit = 8 }) }
{}
