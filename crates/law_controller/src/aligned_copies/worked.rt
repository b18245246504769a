//! A worked row, which the check computes.
ghost use Rattle.std.specs.Prelude.{◌≡◌, ◌∷◌, [], replicate, ◌++◌};
ghost use Rattle.link_words.specs.declared.kinds.Link.TheVariants.{Qh};
ghost use Rattle.link_words.specs.Links.{link_read};
ghost use Rattle.qh_qtd.specs.QueueHead.{qh_at};

/// A link word leads to a queue head at 4,096, whatever its bits 4:3 are; the same bits of a current qTD's address are left out.
pub fn low_bits_are_no_address()
    ensures link { link_read 0x101A ≡ Qh 0x1000 }
    ensures current { (qh_at (0 ∷ 0 ∷ 0 ∷ 0x201F ∷ replicate 8 0)).current ≡ 0x2000 }
{}
