//! A worked row, which the check computes.
ghost use Rattle.std.specs.Prelude.{◌≡◌, take, drop};
ghost use Rattle.word_mem.specs.Views.{words_at};
ghost use Rattle.qh_qtd.specs.QueueHead.{qh_words};
ghost use Rattle.mem_queues.specs.Structures.{overlay_words, overlay_written};
ghost use Rattle.law_structures.specs.lent_structures.StructureSamples.{queue, memory};
ghost use Rattle.law_structures.specs.lent_structures.WriteBackSamples.{settled};

/// The overlay of a copy with an older link is written: the link that stands there stays, and so do the two words behind it.
pub fn an_overlay_leaves_the_front()
    ensures front { words_at (overlay_written memory 0 (overlay_words settled)) 0 3 ≡ take 3 (qh_words queue) }
    ensures rest { words_at (overlay_written memory 0 (overlay_words settled)) 12 9 ≡ drop 3 (qh_words settled) }
{}
