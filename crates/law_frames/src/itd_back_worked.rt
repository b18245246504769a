//! A worked row, which the check computes: of the frame of an iTD and a queue head in 1,024 words.
ghost use Rattle.std.specs.Prelude.{◌≡◌, true, [], ◌∷◌};
ghost use Rattle.word_mem.specs.Memory.{word_at};
ghost use Rattle.hc_iso.specs.WriteBack.{itd_written};
ghost use Rattle.law_structures.specs.lent_structures.Structures.{Tells};
ghost use Rattle.law_frames.specs.Met.{IsMetItd};
ghost use Rattle.law_frames.specs.Frame.{IsCopiedItd};
ghost use Rattle.law_frames.specs.PartSamples.{met, memory, parts, moved};

/// Two bytes came, and are written back: they are in the buffer at byte 192, and the word of microframe 2 tells two bytes, and isn't active any more; the
/// link and the microframe after it are as they were.
pub fn a_microframe_is_written_back()
    ensures told { Tells memory parts }
    ensures met { IsMetItd met 64 (parts 64) }
    ensures copied { IsCopiedItd met parts (5 ∷ 6 ∷ []) moved }
    ensures all { (itd_written moved.held (5 ∷ 6 ∷ []) memory).all ≡ true }
    ensures bytes { word_at (itd_written moved.held (5 ∷ 6 ∷ []) memory).memory 192 ≡ 0x605 }
    ensures word { word_at (itd_written moved.held (5 ∷ 6 ∷ []) memory).memory 76 ≡ 0x200C0 }
    ensures link { word_at (itd_written moved.held (5 ∷ 6 ∷ []) memory).memory 64 ≡ 130 }
    ensures next { word_at (itd_written moved.held (5 ∷ 6 ∷ []) memory).memory 80 ≡ 0 }
{}
