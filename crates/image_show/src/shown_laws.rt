//! Worked values of the shown text, which the check computes.
ghost use Rattle.std.specs.Prelude.{◌≡◌, ℕ, ◌++◌, List, [], ◌∷◌, None, Some, codes, replicate};
ghost use Rattle.link_words.specs.declared.kinds.Link.{Link};
ghost use Rattle.image_show.specs.Base.{link_from, lowered, raised};
ghost use Rattle.image_show.specs.Linked.{list_text};
ghost use Rattle.image_show.specs.Samples.{based_head_line, head_words, head_line};
ghost use Rattle.image_show.specs.Shown.{chain, frames_text, header_line};
ghost use Rattle.image_show.specs.Text.{hex, line};

/// Numbers in hexadecimal.
pub fn numbers()
    ensures word { hex 8 0x40a0c0 ≡ codes "0040a0c0" }
    ensures byte { hex 2 7 ≡ codes "07" }
{}

/// Rings that begin at a queue head at 0: one that leads back to itself, one whose second queue head, at 40h, leads to
/// itself, one that ends, and one each with a reserved speed, an FSTN, a structure outside, an iTD with a reserved
/// `multi` and a good iTD at the second link.
pub fn rings()
    ensures alone { list_text (chain 0 (head_words 2) (Some 0) []) (Link.Qh 0) ≡
        head_line ++ line (codes "  ring") }
    ensures looped { list_text (chain 0 (head_words 0x42 ++ 0 ∷ 0 ∷ 0 ∷ 0 ∷ 0x42 ∷ 0x2003 ∷ 0 ∷ 0 ∷ 1 ∷ 1 ∷ 0 ∷ 0 ∷ 0 ∷ 0 ∷ 0 ∷ 0 ∷ 0 ∷ 0 ∷ 0 ∷ 0 ∷ []) (Some 0) []) (Link.Qh 0) ≡
        head_line ++ (line (codes "  qh 00000040 3.0 high max 0 s 00 c 00 token 00000000") ++ line (codes "  loop at 00000040")) }
    ensures end { list_text (chain 0 (head_words 1) (Some 0) []) (Link.Qh 0) ≡
        head_line ++ line (codes "  end") }
    ensures bad { list_text (chain 0 (head_words 0x42 ++ 0 ∷ 0 ∷ 0 ∷ 0 ∷ 0 ∷ 0x3003 ∷ 0 ∷ 0 ∷ 0 ∷ 0 ∷ 0 ∷ 0 ∷ 0 ∷ 0 ∷ 0 ∷ 0 ∷ []) (Some 0) []) (Link.Qh 0) ≡
        head_line ++ line (codes "  bad at 00000040 word 1 bit 12") }
    ensures fstn { list_text (chain 0 (head_words 0x46 ++ 0 ∷ 0 ∷ 0 ∷ 0 ∷ 0 ∷ 0 ∷ []) (Some 0) []) (Link.Qh 0) ≡
        head_line ++ line (codes "  fstn at 00000040") }
    ensures outside { list_text (chain 0 (head_words 0x42 ++ 0 ∷ 0 ∷ 0 ∷ 0 ∷ 0 ∷ 0 ∷ 0 ∷ 0 ∷ 0 ∷ 0 ∷ 0 ∷ 0 ∷ 0 ∷ 0 ∷ 0 ∷ []) (Some 0) []) (Link.Qh 0) ≡
        head_line ++ line (codes "  outside at 00000040") }
    ensures bad_kind { list_text (chain 0 (head_words 0x40 ++ 0 ∷ 0 ∷ 0 ∷ 0 ∷ 0 ∷ 0 ∷ 0 ∷ 0 ∷ 0 ∷ 0 ∷ 0 ∷ 0 ∷ 0 ∷ 0 ∷ 0 ∷ 0 ∷ 0 ∷ 0 ∷ 0 ∷ 0 ∷ []) (Some 0) []) (Link.Qh 0) ≡
        head_line ++ line (codes "  bad at 00000040 word 11 bit 0") }
    ensures kind { list_text (chain 0 (head_words 0x40 ++ 0 ∷ 0 ∷ 0 ∷ 0 ∷ 0 ∷ 0 ∷ 0 ∷ 0 ∷ 0 ∷ 0 ∷ 0 ∷ 0 ∷ 0 ∷ 0 ∷ 0 ∷ 1 ∷ 0 ∷ 0 ∷ 0 ∷ 0 ∷ []) (Some 0) []) (Link.Qh 0) ≡
        head_line ++ line (codes "  kind at 00000040") }
{}

/// A queue whose one descriptor, at 40h, leads to itself, below a queue head at 0.
pub fn queues()
    ensures looped { list_text (chain 0 (1 ∷ 0x40a000 ∷ 0x40000000 ∷ 0 ∷ 0x40 ∷ 1 ∷ 0x40 ∷ 0 ∷ 0 ∷ 0 ∷ 0 ∷ 0 ∷ 0 ∷ 0 ∷ 0 ∷ 0 ∷ 0x40 ∷ 1 ∷ 0x2000d80 ∷ 0 ∷ 0 ∷ 0 ∷ 0 ∷ 0 ∷ []) (Some 0) []) (Link.Qh 0) ≡
        head_line ++ (line (codes "    qtd 00000040 in total 512 cerr 3 token 02000d80") ++ (line (codes "    loop at 00000040") ++ line (codes "  end"))) }
{}

/// Two frames that lead to the queue head at 40h, and the first line of their image.
pub fn frames()
    ensures seen { frames_text (record { frindex = 8; list_base = 0; async_at = 0x40; base = 0; words = 0x42 ∷ 0x42 ∷ replicate 15 1 ++ 0x82005 ∷ 0x1c01 ∷ 0 ∷ 1 ∷ 1 ∷ 0 ∷ 0 ∷ 0 ∷ 0 ∷ 0 ∷ 0 ∷ [] }) 3 ≡
        line (codes "frame 0") ++ (line (codes "  qh 00000040 5.0 high max 8 s 01 c 1c token 00000000") ++ (line (codes "frame 1") ++ line (codes "  seen 00000040"))) }
    ensures header { header_line (record { frindex = 8; list_base = 0; async_at = 0x40; base = 0; words = 0 ∷ 0 ∷ [] }) ≡
        line (codes "frindex 0008 list 00000000 async 00000040 words 2") }
{}

/// Places of byte addresses, and back: from the base on, and below it.
pub fn places()
    ensures from { lowered 0x7ff40000 0x7ff41040 ≡ 0x1040 }
    ensures below { lowered 0x7ff40000 0x1040 ≡ 0x800c1040 }
    ensures address { raised 0x7ff40000 0x1040 ≡ 0x7ff41040 }
    ensures back { raised 0x7ff40000 0x800c1040 ≡ 0x1040 }
    ensures link { link_from 0x7ff40000 0x7ff41042 ≡ Link.Qh 0x1040 }
    ensures end { link_from 0x7ff40000 0x7ff41043 ≡ Link.End }
    ensures none { lowered 0 0x1040 ≡ 0x1040 }
{}

/// Words from 7FF40000h on: a ring of a queue head there that leads back to itself, one whose link leads below it, the queue of one whose
/// descriptor leads to itself, and the first line of an image.
pub fn based()
    ensures ring { list_text (chain 0x7ff40000 (head_words 0x7ff40002) (Some 0) []) (Link.Qh 0) ≡
        based_head_line ++ line (codes "  ring") }
    ensures below { list_text (chain 0x7ff40000 (head_words 2) (Some 0) []) (Link.Qh 0) ≡
        based_head_line ++ line (codes "  outside at 00000000") }
    ensures queue { list_text (chain 0x7ff40000 (1 ∷ 0x40a000 ∷ 0x40000000 ∷ 0 ∷ 0x7ff40040 ∷ 1 ∷ 0x40 ∷ 0 ∷ 0 ∷ 0 ∷ 0 ∷ 0 ∷ 0 ∷ 0 ∷ 0 ∷ 0 ∷ 0x7ff40040 ∷ 1 ∷ 0x2000d80 ∷ 0 ∷ 0 ∷ 0 ∷ 0 ∷ 0 ∷ []) (Some 0) []) (Link.Qh 0) ≡
        based_head_line ++ (line (codes "    qtd 7ff40040 in total 512 cerr 3 token 02000d80") ++ (line (codes "    loop at 7ff40040") ++ line (codes "  end"))) }
    ensures header { header_line (record { frindex = 8; list_base = 0x7ff40000; async_at = 0x7ff40040; base = 0x7ff40000; words = 0 ∷ 0 ∷ [] }) ≡
        line (codes "frindex 0008 list 7ff40000 async 7ff40040 words 2 from 7ff40000") }
{}
