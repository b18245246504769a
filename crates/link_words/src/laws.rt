ghost use Rattle.std.specs.Prelude.{◌≡◌, true, Some, None, ◌∷◌, []};
ghost use Rattle.link_words.specs.declared.kinds.Link.{Link};
ghost use Rattle.link_words.specs.declared.kinds.QtdLink.{QtdLink};
ghost use Rattle.link_words.specs.Layout.{first_bad_bit, ranges_of, is_sound};
ghost use Rattle.link_words.specs.Fields.{link_rows, short_link_rows};
ghost use Rattle.link_words.specs.Links.{link_read, link_word, qtd_link_read, qtd_link_word};

/// Worked link words (EHCI 1.0, 3.3.1 and 3.5.1), computed from the tables: each bit stands in one row, the links of
/// each type at 1040h, the end of a list, and the first reserved bit of some words.
#[tactic(auto, unfolding(crate::specs::Layout::first_bad_bit, crate::specs::Links::link_read, crate::specs::Links::link_word, crate::specs::Links::qtd_link_read, crate::specs::Links::qtd_link_word))]
pub fn worked_words()
    ensures link_sound { is_sound (link_rows ∷ []) ≡ true }
    ensures short_link_sound { is_sound (short_link_rows ∷ []) ≡ true }
    ensures end { link_word Link.End ≡ 1 }
    ensures qtd_end { qtd_link_word QtdLink.End ≡ 1 }
    ensures itd { link_word (Link.Itd 0x1040) ≡ 0x1040 }
    ensures queue_head { link_word (Link.Qh 0x1040) ≡ 0x1042 }
    ensures sitd { link_word (Link.Sitd 0x1040) ≡ 0x1044 }
    ensures fstn { link_word (Link.Fstn 0x1040) ≡ 0x1046 }
    ensures read_queue_head { link_read 0x1002 ≡ Link.Qh 0x1000 }
    ensures read_fstn { link_read 0x1046 ≡ Link.Fstn 0x1040 }
    ensures read_end { link_read 0xFFFF_FFFF ≡ Link.End }
    ensures read_reserved { link_read 0x1018 ≡ Link.Itd 0x1000 }
    ensures read_qtd { qtd_link_read 0x2020 ≡ QtdLink.To 0x2020 }
    ensures none { first_bad_bit (ranges_of link_rows) 0xFFFF_FFE7 ≡ None }
    ensures both { first_bad_bit (ranges_of link_rows) 0x1018 ≡ Some 3 }
    ensures upper { first_bad_bit (ranges_of link_rows) 0x1010 ≡ Some 4 }
    ensures short { first_bad_bit (ranges_of short_link_rows) 0x1012 ≡ Some 1 }
{}
