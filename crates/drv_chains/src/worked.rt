//! Worked values of the definitions, which the check computes.
ghost use Rattle.std.specs.Prelude.{◌≡◌, length, [], ◌∷◌, Some, None};
ghost use Rattle.drv_chains.specs.declared.members.Member.TheVariants.{Once, Each};
ghost use Rattle.drv_chains.specs.declared.members.Predecessor.TheVariants.{Element, After};
ghost use Rattle.drv_chains.specs.Order.{frames};
ghost use Rattle.drv_chains.specs.Chains.{predecessor, predecessors, successor, frames_of};
ghost use Rattle.drv_chains.specs.Classes.{members, words_below, class_words};
ghost use Rattle.drv_chains.specs.declared.boundary.Boundary.TheVariants.{Unread, Since, Seen};
ghost use Rattle.drv_chains.specs.Boundary.{after_readings};
ghost use Rattle.drv_chains.specs.Worked.{iso, queue, queues_alone, names_in, busy, linked_names, unlinked_names};

/// The order of frames.
#[tactic(auto, unfolding(crate::specs::Order::frames))]
pub fn order_of_frames()
    ensures eight { frames 3 ≡ 0 ∷ 4 ∷ 2 ∷ 6 ∷ 1 ∷ 5 ∷ 3 ∷ 7 ∷ [] }
    ensures all { length (frames 10) ≡ 1024 }
{}

/// Chains of frames: descriptors, then queue heads by period and order of opening.
pub fn chains()
    ensures odd { names_in busy 1 ≡ 5 ∷ 2 ∷ 1 ∷ 3 ∷ 4 ∷ [] }
    ensures even { names_in busy 2 ≡ 1 ∷ 3 ∷ 4 ∷ [] }
    ensures one_descriptor { names_in busy 4 ≡ 11 ∷ 1 ∷ 3 ∷ 4 ∷ [] }
    ensures two_descriptors { names_in busy 5 ≡ 12 ∷ 10 ∷ 5 ∷ 2 ∷ 1 ∷ 3 ∷ 4 ∷ [] }
    ensures between { names_in busy 7 ≡ 2 ∷ 1 ∷ 3 ∷ 4 ∷ [] }
{}

/// The words that are stored.
#[tactic(auto, unfolding(crate::specs::Order::frames, crate::specs::Chains::predecessors, crate::specs::Chains::word_after, crate::specs::Chains::before_the, crate::specs::Chains::behind_the))]
pub fn stored_words()
    ensures newest { predecessors busy (Once (iso 12 5)) (frames 3) ≡ Element 5 ∷ [] }
    ensures older { predecessors busy (Once (iso 10 5)) (frames 3) ≡ After (Once (iso 12 5)) ∷ [] }
    ensures after_a_descriptor { predecessors busy (Each (queue 5 32 1)) (frames 3) ≡ Element 1 ∷ After (Once (iso 10 5)) ∷ [] }
    ensures after_longer { predecessors busy (Each (queue 2 16 1)) (frames 3) ≡ After (Each (queue 5 32 1)) ∷ Element 3 ∷ Element 7 ∷ [] }
    ensures first_of_class { predecessors busy (Each (queue 1 8 0)) (frames 3) ≡ Element 0 ∷ After (Once (iso 11 4)) ∷ Element 2 ∷ Element 6 ∷ After (Each (queue 2 16 1)) ∷ [] }
    ensures in_its_class { predecessors busy (Each (queue 3 8 0)) (frames 3) ≡ After (Each (queue 1 8 0)) ∷ [] }
    ensures shorter { predecessors busy (Each (queue 4 4 0)) (frames 3) ≡ After (Each (queue 3 8 0)) ∷ [] }
    ensures frames_of_one { frames_of (After (Each (queue 2 16 1))) (frames 3) ≡ 1 ∷ 5 ∷ 3 ∷ 7 ∷ [] }
    ensures behind { successor busy (Each (queue 2 16 1)) 5 ≡ Some (Each (queue 1 8 0)) }
    ensures last { successor busy (Each (queue 4 4 0)) 5 ≡ None }
{}

/// How many stores an opening takes in a list of 1,024 frames: a queue head of each frame one a frame, a second behind it one, then one
/// of every second frame one a frame of its own.
#[tactic(auto, unfolding(crate::specs::Order::frames, crate::specs::Chains::predecessors, crate::specs::Chains::word_after, crate::specs::Chains::before_the, crate::specs::Chains::behind_the))]
pub fn counts_of_stores()
    ensures first { length (predecessors (queues_alone (queue 1 8 0 ∷ [])) (Each (queue 1 8 0)) (frames 10)) ≡ 1024 }
    ensures second { length (predecessors (queues_alone (queue 1 8 0 ∷ queue 2 8 0 ∷ [])) (Each (queue 2 8 0)) (frames 10)) ≡ 1 }
    ensures third { length (predecessors (queues_alone (queue 1 8 0 ∷ queue 2 8 0 ∷ queue 3 16 1 ∷ [])) (Each (queue 3 16 1)) (frames 10)) ≡ 512 }
{}

/// The same words found by classes.
#[tactic(auto, unfolding(crate::specs::Classes::words_below, crate::specs::Chains::word_after, crate::specs::Chains::before_the))]
pub fn words_by_classes()
    ensures lowest { members busy 0 0 ≡ queue 1 8 0 ∷ queue 3 8 0 ∷ queue 4 4 0 ∷ [] }
    ensures higher { members busy 1 1 ≡ queue 2 16 1 ∷ [] }
    ensures empty { members busy 1 0 ≡ [] }
    ensures every_frame { words_below busy 3 0 0 ≡ Element 0 ∷ After (Once (iso 11 4)) ∷ Element 2 ∷ Element 6 ∷ After (Each (queue 2 16 1)) ∷ [] }
    ensures second_of_class { class_words busy 10 0 (queue 3 8 0) ≡ After (Each (queue 1 8 0)) ∷ [] }
    ensures first_of_class { class_words busy 9 1 (queue 2 16 1) ≡ words_below busy 9 1 1 }
    ensures odd_frames { words_below busy 2 1 1 ≡ After (Each (queue 5 32 1)) ∷ Element 3 ∷ Element 7 ∷ [] }
{}

/// Half of the stores made: a queue head of every second frame of four is linked, and unlinked.
#[tactic(auto, unfolding(crate::specs::Order::frames, crate::specs::Chains::predecessors, crate::specs::Chains::word_after, crate::specs::Chains::before_the))]
pub fn half_done()
    ensures linked { linked_names 1 1 ≡ 2 ∷ 1 ∷ [] }
    ensures not_yet { linked_names 1 3 ≡ 1 ∷ [] }
    ensures not_its { linked_names 1 0 ≡ 1 ∷ [] }
    ensures all { linked_names 2 3 ≡ 2 ∷ 1 ∷ [] }
    ensures unlinked { unlinked_names 1 1 ≡ 1 ∷ [] }
    ensures still { unlinked_names 1 3 ≡ 2 ∷ 1 ∷ [] }
    ensures none { unlinked_names 2 3 ≡ 1 ∷ [] }
    ensures in_the_middle { predecessors (queues_alone (queue 1 8 0 ∷ queue 2 8 0 ∷ queue 3 8 0 ∷ [])) (Each (queue 2 8 0)) (frames 2) ≡ After (Each (queue 1 8 0)) ∷ [] }
    ensures last { predecessors (queues_alone (queue 1 8 0 ∷ queue 2 8 0 ∷ queue 3 8 0 ∷ [])) (Each (queue 3 8 0)) (frames 2) ≡ After (Each (queue 2 8 0)) ∷ [] }
{}

/// Readings of FRINDEX: within one frame, into the next, and round the end of the count.
#[tactic(auto, unfolding(crate::specs::Boundary::after_readings))]
pub fn boundaries()
    ensures none { after_readings [] Unread ≡ Unread }
    ensures one { after_readings (80 ∷ []) Unread ≡ Since 10 }
    ensures one_frame { after_readings (80 ∷ 87 ∷ []) Unread ≡ Since 10 }
    ensures next { after_readings (80 ∷ 87 ∷ 88 ∷ []) Unread ≡ Seen }
    ensures round { after_readings (16383 ∷ 0 ∷ []) Unread ≡ Seen }
    ensures stays { after_readings (80 ∷ 88 ∷ 80 ∷ []) Unread ≡ Seen }
{}
