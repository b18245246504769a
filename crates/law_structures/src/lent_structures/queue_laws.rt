//! The structures of one queue head, and what the controller's writes leave of them (EHCI 1.0, 3.5, 3.6 and 4.10): a part that is sound, in which links lead to
//! qTDs that are there and a published qTD has its buffer, stays sound.
ghost use Rattle.std.specs.Prelude.{◌≡◌, ℕ, Bool, Some};
ghost use Rattle.qh_qtd.specs.declared.qtd.Qtd.{Qtd};
ghost use Rattle.qh_qtd.specs.declared.queue_head.Qh.{Qh};
ghost use Rattle.law_structures.specs.lent_structures.Structures.{QueueHead, Element, Structures, with_structure};
ghost use Rattle.law_structures.specs.lent_structures.Sound.{LeadsAmong, IsSoundQueue, IsMember};
ghost use Rattle.law_structures.specs.lent_structures.Alters.{Alters, IsAfter};

/// Where qTDs and buffers are altered at most, and the queue head that then stands there is sound, the part is that of a member again.
pub fn an_altered_part_is_sound()
    ensures { (member : ℕ → Bool) (n : ℕ) (part now : Structures) (new : Qh) → IsMember member n part → Alters part now → now n ≡ Some (QueueHead new)
        → LeadsAmong member new.link → IsSoundQueue now new → IsMember member n now }
{}

/// Another queue head in the place of one alters nothing.
pub fn a_queue_head_alters_nothing()
    ensures { (part : Structures) (a : ℕ) (q new : Qh) → part a ≡ Some (QueueHead q) → Alters part (with_structure part a (QueueHead new)) }
{}

/// A qTD whose token is written at its end alters the part no more than that.
pub fn a_token_alters_its_qtd()
    ensures { (part : Structures) (a : ℕ) (t u : Qtd) → part a ≡ Some (Element t) → IsAfter t u → Alters part (with_structure part a (Element u)) }
{}
