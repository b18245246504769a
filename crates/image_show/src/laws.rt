//! What follows of the definitions alone.
ghost use Rattle.std.specs.Prelude.{◌≡◌, ℕ, ◌%◌, ◌++◌, List, Option, Some, is_some, true, length, codes, replicate};
ghost use Rattle.link_words.specs.declared.kinds.Link.{Link};
ghost use Rattle.link_words.specs.declared.kinds.QtdLink.{QtdLink};
ghost use Rattle.link_words.specs.Links.{IsAligned as IsLinkAligned, IsQtdAligned};
ghost use Rattle.image_codec.specs.Image.{field_bytes};
ghost use Rattle.image_codec.specs.Samples.{header};
ghost use Rattle.image_show.specs.ImageAt.{any_fault};
ghost use Rattle.image_show.specs.Linked.{count, ending_at};
ghost use Rattle.image_show.specs.Shown.{chain, queue};

use image_codec::ImageWhy;

/// Every list of an image ends at one of its endings: it has no more structures than memory has units of 32 bytes, so the
/// text goes on up to the first link that ends a list, and no bound cuts it.
pub fn lists_end()
    ensures queues { (base : ℕ) → (words : List ℕ) → (first : QtdLink) → base % 32 ≡ 0 → IsQtdAligned first →
        is_some (ending_at (queue base words) first (count (queue base words) first)) ≡ true }
    ensures chains { (base : ℕ) → (words seen : List ℕ) → (home : Option ℕ) → (first : Link) → base % 32 ≡ 0 → length words % 8 ≡ 0 → IsLinkAligned first →
        is_some (ending_at (chain base words home seen) first (count (chain base words home seen) first)) ≡ true }
{}

/// Worked values: bytes with a base are refused at the first field that is wrong, else at their number; those of no version that there
/// is, at the version.
pub fn refusals()
    ensures short { any_fault (codes "EHCI" ++ field_bytes 2) ≡ Some (record { offset = 8; why = ImageWhy.Length }) }
    ensures magic { any_fault (codes "EHCJ" ++ header 2 16384 1 1 1) ≡ Some (record { offset = 0; why = ImageWhy.Magic }) }
    ensures version { any_fault (codes "EHCI" ++ header 3 16384 1 1 1) ≡ Some (record { offset = 4; why = ImageWhy.Version }) }
    ensures frindex { any_fault (codes "EHCI" ++ header 2 16384 1 1 1) ≡ Some (record { offset = 8; why = ImageWhy.Alignment }) }
    ensures list_base { any_fault (codes "EHCI" ++ header 2 16383 2048 1 1) ≡ Some (record { offset = 12; why = ImageWhy.Alignment }) }
    ensures async_at { any_fault (codes "EHCI" ++ header 2 16383 4096 16 1) ≡ Some (record { offset = 16; why = ImageWhy.Alignment }) }
    ensures base { any_fault (codes "EHCI" ++ header 2 16383 4096 32 2048) ≡ Some (record { offset = 20; why = ImageWhy.Alignment }) }
    ensures room { any_fault (codes "EHCI" ++ header 2 16383 4096 32 0xfffff000 ++ replicate 4096 0) ≡ Some (record { offset = 20; why = ImageWhy.Alignment }) }
    ensures words { any_fault (codes "EHCI" ++ header 2 16383 4096 32 0xfffff000) ≡ Some (record { offset = 24; why = ImageWhy.Length }) }
    ensures first { any_fault (codes "EHCI" ++ header 1 16383 4096 32 2048) ≡ Some (record { offset = 24; why = ImageWhy.Length }) }
{}
