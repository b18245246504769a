//! Worked rows of the definitions, computed: bytes of a word, places in pages, and bytes stored and loaded.
ghost use Rattle.std.specs.Prelude.{◌≡◌, [], ◌∷◌, replicate, false, true};
ghost use Rattle.word_mem.specs.Views.{byte_at};
ghost use Rattle.mem_bytes.specs.Bytes.{bytes_of, word_of, with_byte, place, places, bytes_at, with_bytes, reached, all_reached, stored, loaded};
ghost use Rattle.mem_bytes.specs.Samples.{two_words, two_blocks, with_one_byte};

/// The word 0x11223344 has its lowest byte first, and a byte in it changes alone.
#[tactic(auto, unfolding(crate::specs::Bytes::put_byte))]
pub fn words_of_bytes()
    ensures lowest_first { bytes_of 287454020 ≡ 68 ∷ 51 ∷ 34 ∷ 17 ∷ [] }
    ensures back { word_of (68 ∷ 51 ∷ 34 ∷ 17 ∷ []) ≡ 287454020 }
    ensures second { byte_at (two_words 0 287454020) 5 ≡ 51 }
    ensures changed { with_byte (two_words 0 287454020) 5 255 ≡ two_words 0 287506244 }
{}

/// Pages 5 and 9: after the last byte of page 5 comes the first of page 9.
#[tactic(auto, unfolding(crate::specs::Bytes::places))]
pub fn pages_in_turn()
    ensures first { place (5 ∷ 9 ∷ []) 0 ≡ 20480 }
    ensures across { places (5 ∷ 9 ∷ []) 4094 4 ≡ 24574 ∷ 24575 ∷ 36864 ∷ 36865 ∷ [] }
{}

/// The words 0x11223344 and 0x55667788 in page 0, from an odd place on.
#[tactic(auto, unfolding(crate::specs::Bytes::places, crate::specs::Bytes::bytes_at, crate::specs::Bytes::put_byte, crate::specs::Bytes::put_bytes))]
pub fn unaligned()
    ensures read { bytes_at (two_words 287454020 1432778632) (0 ∷ []) 2 4 ≡ 34 ∷ 17 ∷ 136 ∷ 119 ∷ [] }
    ensures written { with_bytes (two_words 287454020 1432778632) (0 ∷ []) 3 (1 ∷ 2 ∷ []) ≡ two_words 19018564 1432778498 }
{}

/// A Lent block and a Kept one: byte 31 of the page is stored and loaded, and byte 32 is refused.
#[tactic(auto, unfolding(crate::specs::Bytes::places, crate::specs::Bytes::bytes_at, crate::specs::Bytes::put_byte, crate::specs::Bytes::put_bytes, crate::specs::Bytes::reached, crate::specs::Bytes::all_reached, crate::specs::Bytes::stored, crate::specs::Bytes::loaded))]
pub fn refused_within()
    ensures one { reached (two_blocks (replicate 16 0) 0) (0 ∷ []) 31 3 ≡ 1 }
    ensures not_all { all_reached (two_blocks (replicate 16 0) 0) (0 ∷ []) 31 3 ≡ false }
    ensures all { all_reached (two_blocks (replicate 16 0) 0) (0 ∷ []) 30 2 ≡ true }
    ensures stored { stored (two_blocks (replicate 16 0) 0) (0 ∷ []) 31 (7 ∷ 8 ∷ []) ≡ two_blocks with_one_byte 1 }
    ensures loaded { loaded (two_blocks with_one_byte 0) (0 ∷ []) 31 (1 ∷ 2 ∷ 3 ∷ []) ≡ 7 ∷ 2 ∷ 3 ∷ [] }
{}
