ghost use Rattle.std.specs.Prelude.{◌≡◌, ℕ, ◌+◌, ◌<◌, Bool, List, Some, None};
ghost use Rattle.usb_base.specs.declared.packets.Reply.{Reply};
ghost use Rattle.qh_qtd.specs.declared.queue_head.Qh.{Qh};
ghost use Rattle.itd_sitd.specs.declared.sitd.Sitd.{Sitd};
ghost use Rattle.hc_iso.specs.Sitd.{sitd_after, missed_sitd, sitd_place, moved_sitd};
ghost use Rattle.law_structures.specs.lent_structures.Structures.{QueueHead, Structures, StructureSets};
ghost use Rattle.law_structures.specs.lent_structures.Sound.{IsSoundQueue, IsMember};
ghost use Rattle.law_structures.specs.lent_structures.Alters.{Alters};
ghost use Rattle.law_ring.specs.Hand.{copied_queue};
ghost use Rattle.law_frames.specs.Met.{IsQueuePart, IsLinkedPart};
ghost use Rattle.law_frames.specs.FrameHand.{FrameHand, Nothing, fetched_copy};
ghost use Rattle.law_frames.specs.Frame.{IsInFrame, turned};

/// Where qTDs and buffers are altered at most, and the queue head that then stands there is sound, the part is that of a queue head again.
pub fn an_altered_queue_part_is_sound()
    ensures { (n : ℕ) (part now : Structures) (new : Qh) → IsQueuePart n part → Alters part now → now n ≡ Some (QueueHead new) → IsSoundQueue now new → IsQueuePart n now }
{}

/// What a ring asks of a queue head is the same, and its link.
pub fn a_members_part_is_linked()
    ensures { (member : ℕ → Bool) (n : ℕ) (part : Structures) → IsMember member n part → IsLinkedPart member n part }
{}

/// .. and the other way.
pub fn a_linked_part_is_a_members()
    ensures { (member : ℕ → Bool) (n : ℕ) (part : Structures) → IsLinkedPart member n part → IsMember member n part }
{}

/// The copy of a queue head that was just read is the queue head that stands there.
pub fn what_is_fetched_is_what_stands()
    ensures { (a : ℕ) (q : Qh) → copied_queue (fetched_copy a q) ≡ q }
{}

/// Where the frames have no structure, nothing is in hand.
pub fn where_nothing_is_met_nothing_is_in_hand()
    ensures { (parts : StructureSets) (got : List ℕ) (reply : Reply) (hand : FrameHand) → IsInFrame (λ a. None) parts got reply hand → hand ≡ Nothing }
{}

/// What a transaction makes of a siTD differs from it in its transfer state, its transaction position and its count alone (EHCI 1.0, 3.4.3, 3.4.4 and
/// 4.12.3); so does what a microframe that was missed makes of it.
pub fn a_transaction_turns_a_sitd()
    ensures transaction { (u : ℕ) (reply : Reply) (v : Sitd) → turned v (sitd_after u reply v) ≡ sitd_after u reply v }
    ensures miss { (v : Sitd) → turned v (missed_sitd v) ≡ missed_sitd v }
{}

/// Its place moves on by the bytes that were moved, from its first page into its second too (3.4.4).
pub fn its_place_moves_on()
    ensures { (n : ℕ) (v : Sitd) → sitd_place v + n < 8192 → sitd_place (moved_sitd n v) ≡ sitd_place v + n }
{}
