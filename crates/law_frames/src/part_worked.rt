//! Worked rows, which the check computes: of a frame with an iTD and a queue head of an interrupt endpoint.
ghost use Rattle.std.specs.Prelude.{◌≡◌, ℕ, true, false, [], ◌∷◌, Some, None};
ghost use Rattle.word_mem.specs.Memory.{word_at};
ghost use Rattle.link_words.specs.declared.kinds.Link.{Link};
ghost use Rattle.link_words.specs.Links.{link_read, link_of};
ghost use Rattle.itd_sitd.specs.Itd.{slot_of};
ghost use Rattle.law_structures.specs.lent_structures.Structures.{Buffer};
ghost use Rattle.law_structures.specs.lent_structures.WriteBack.{Into};
ghost use Rattle.periodic_walk.specs.Chain.{chain_row, chain_walk};
ghost use Rattle.law_frames.specs.Met.{Kind, AQueue, AnItd};
ghost use Rattle.law_frames.specs.FrameHand.{Nothing, OfItd, OfQueue, frame_held, fetched_copy};
ghost use Rattle.law_frames.specs.Frame.{IsFrame};
ghost use Rattle.law_frames.specs.FrameEffects.{Fetches, itd_back, itd_parts};
ghost use Rattle.law_frames.specs.PartSamples.{itd, queue, pages, met, memory, parts, begun, at, in_hand, fetched, moved};

/// The element leads to the iTD, its link to the queue head, and this ends the chain: both are met, and nothing else is.
#[tactic(auto, unfolding(link_words::specs::Links::link_read, itd_sitd::specs::Itd::itd_words, qh_qtd::specs::QueueHead::qh_words))]
pub fn a_frame_is_met()
    ensures element { link_read (word_at memory 0) ≡ Link.Itd 64 }
    ensures descriptor { met 64 ≡ Some AnItd }
    ensures behind { link_of itd.link ≡ Link.Qh 128 }
    ensures queue { met 128 ≡ Some AQueue }
    ensures last { link_of queue.link ≡ Link.End }
    ensures other { met 192 ≡ None }
{}

/// The iTD is read: its copy is in hand, with its microframe 2, and one packet of up to two bytes is to come.
#[tactic(auto, unfolding(hc_iso::specs::Itd::fetched_itd, word_mem::specs::Views::words_in, itd_sitd::specs::Itd::itd_read, itd_sitd::specs::Itd::itd_bad, itd_sitd::specs::Itd::itd_at, itd_sitd::specs::Itd::itd_words, itd_sitd::specs::Slot::slot_at, itd_sitd::specs::Slot::slot_word, qh_qtd::specs::QueueHead::qh_words, qh_qtd::specs::QueueHead::qh_read, qh_qtd::specs::QueueHead::qh_bad, qh_qtd::specs::QueueHead::qh_at, qh_qtd::specs::Token::token_at, qh_qtd::specs::Token::token_word, link_words::specs::Layout::first_bad_bit))]
pub fn an_itd_is_fetched()
    ensures walk { chain_walk (chain_row memory begun.cursor) begun ≡ fetched.walk }
    ensures hand { fetched.walk.hand ≡ frame_held (OfItd in_hand) }
    ensures number { in_hand.held.number ≡ 2 }
    ensures length { in_hand.held.slot.length ≡ 2 }
    ensures rest { in_hand.held.rest ≡ 1 }
    ensures queue { (chain_walk (chain_row memory (Link.Qh 128)) begun).hand ≡ frame_held (OfQueue (fetched_copy 128 queue) 0) }
{}

/// Before it is read and after it, the two structures are a frame at any moment of the walk; and reading it changes nothing else.
pub fn a_frame_of_two()
    ensures before { IsFrame met parts Nothing at }
    ensures after { IsFrame met parts (OfItd in_hand) fetched }
    ensures fetches { Fetches parts begun (OfItd in_hand) }
{}

/// Two bytes came, and are written back: they are in the buffer, and the microframe isn't active any more; no other is changed.
#[tactic(auto, unfolding(hc_iso::specs::Itd::fetched_itd, hc_iso::specs::Itd::after_in, hc_iso::specs::WriteBack::done_slot))]
pub fn two_bytes_are_written_back()
    ensures moved { moved.held.moved ≡ 2 }
    ensures active { (slot_of 2 (itd_back moved)).active ≡ false }
    ensures length { (slot_of 2 (itd_back moved)).length ≡ 2 }
    ensures other { slot_of 3 (itd_back moved) ≡ slot_of 3 itd }
    ensures bytes { itd_parts parts moved (5 ∷ 6 ∷ []) (Into pages 192 (7 ∷ 9 ∷ []) 0) 64 192 ≡ Some (Buffer pages 192 (5 ∷ 6 ∷ [])) }
{}
