//! Worked rows, which the check computes: of the iTD of a frame, whose microframe 2 is written back with two bytes.
ghost use Rattle.std.specs.Prelude.{◌≡◌, [], ◌∷◌, take, drop};
ghost use Rattle.itd_sitd.specs.Itd.{itd_words};
ghost use Rattle.law_structures.specs.lent_structures.WriteBack.{Into};
ghost use Rattle.law_frames.specs.FrameEffects.{itd_back, itd_parts};
ghost use Rattle.law_frames.specs.PartSamples.{itd, pages, parts, moved};
ghost use Rattle.law_descriptors.specs.frame_keeps.Kept.{KeepsParts};

/// Its bytes are put and its microframe is written: all is kept.
pub fn a_written_itd_keeps_its_fields()
    ensures { KeepsParts parts (itd_parts parts moved (5 ∷ 6 ∷ []) (Into pages 192 (7 ∷ 9 ∷ []) 0)) }
{}

/// Of its words only word 3 isn't left.
#[tactic(auto, unfolding(itd_sitd::specs::Itd::itd_words, itd_sitd::specs::Slot::slot_word, hc_iso::specs::Itd::fetched_itd, hc_iso::specs::Itd::after_in, hc_iso::specs::WriteBack::done_slot))]
pub fn a_written_itd_leaves_its_words()
    ensures front { take 3 (itd_words (itd_back moved)) ≡ take 3 (itd_words itd) }
    ensures rest { drop 4 (itd_words (itd_back moved)) ≡ drop 4 (itd_words itd) }
{}
