//! The laws, each a function whose contract is the law.
ghost use Rattle.std.specs.Prelude.{◌≡◌, ℕ, ◌%◌, ◌^◌, ◌<◌, nat_eq, true, List, map, ◌⊎◌};
ghost use Rattle.std.specs.List.{All, list_any};
ghost use Rattle.drv_chains.specs.declared.members.QueueHead.{QueueHead};
ghost use Rattle.drv_chains.specs.declared.members.Member.{Member};
ghost use Rattle.drv_chains.specs.Order.{ComesFirst, frames, AreInOrder};
ghost use Rattle.drv_chains.specs.Chains.{Schedule, is_period, is_active, first_frame, chain, predecessors};
ghost use Rattle.drv_chains.specs.Classes.{chain_by_classes};
ghost use Rattle.drv_chains.specs.declared.boundary.Boundary.TheVariants.{Unread};
ghost use Rattle.drv_chains.specs.Boundary.{after_readings, is_seen, differ};
ghost use Rattle.drv_chains.specs.Laws.{ServesItsFrames, HasOneSuccessor, LinksQueueHead, LinksDescriptor, UnlinksQueueHead, UnlinksDescriptor, StoresQueueHead, StoresDescriptor, FindsItsWords};

/// The frames come in their order, each once: those below 2 ^ bits and no others.
pub fn frames_come_in_order()
    ensures order { (bits : ℕ) → AreInOrder (frames bits) }
    ensures each { (bits f : ℕ) → f < 2 ^ bits → list_any (λ g. nat_eq g f) (frames bits) ≡ true }
    ensures no_other { (bits : ℕ) → All (λ f. f < 2 ^ bits) (frames bits) }
    ensures once { (f : ℕ) → ComesFirst f f → ⊥ }
{}

/// The frames of one period and phase stand together: what comes between two of them is one of them.
pub fn frames_of_a_class_stand_together()
    ensures { (level f g h : ℕ) → ComesFirst f g → ComesFirst g h → f % 2 ^ level ≡ h % 2 ^ level → g % 2 ^ level ≡ f % 2 ^ level }
{}

/// A queue head's phase is the first of its frames.
pub fn the_phase_comes_first()
    ensures { (q : QueueHead) → (f : ℕ) → is_period q.period ≡ true → is_active f q ≡ true → (q.phase ≡ f) ⊎ ComesFirst q.phase f }
{}

/// A frame's chain is its descriptors and one class a level.
pub fn classes_make_the_chains()
    ensures { (s : Schedule) → (f : ℕ) → chain_by_classes s f ≡ chain s f }
{}

/// A word that leads to a queue head in one frame leads to it in each frame whose chain has the word: so one store serves them all.
pub fn a_word_serves_all_its_frames()
    ensures { ServesItsFrames }
{}

/// While a queue head or a descriptor with a new name is linked, n stores made, each frame's chain is the new one where its store was made, else the
/// old one; its own link must lead to its successor.
pub fn half_linked_chains()
    ensures queue_head { LinksQueueHead }
    ensures descriptor { LinksDescriptor }
{}

/// While one is unlinked, n stores of its own link made, each frame's chain is the new one where its store was made, else the
/// old one. Its own link stays.
pub fn half_unlinked_chains()
    ensures queue_head { UnlinksQueueHead }
    ensures descriptor { UnlinksDescriptor }
{}

/// A queue head has one successor in all its frames: so its own link serves them all.
pub fn one_link_serves_all_frames()
    ensures { HasOneSuccessor }
{}

/// The words that are stored come in the order of their first frames, each once.
pub fn stores_come_in_order()
    ensures { (s : Schedule) → (m : Member) → (bits : ℕ) → AreInOrder (map first_frame (predecessors s m (frames bits))) }
{}

/// Once all the stores are made, each frame's store is: none is left out.
pub fn all_stores_are_made()
    ensures queue_head { StoresQueueHead }
    ensures descriptor { StoresDescriptor }
{}

/// In a list of 1,024 frames the classes find each word that is stored once, in the order of the frames.
pub fn classes_find_the_words()
    ensures { FindsItsWords }
{}

/// The boundary is seen exactly where two of the readings since the last unlinking store have different frame numbers.
pub fn a_boundary_is_two_frames()
    ensures { (ns : List ℕ) → is_seen (after_readings ns Unread) ≡ differ ns }
{}
