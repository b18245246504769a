//! The laws, each a function whose contract is the law.
ghost use Rattle.std.specs.Prelude.{◌≡◌, ℕ, true, false, List, [], ◌∷◌, ◌++◌};
ghost use Rattle.drv_chains.specs.declared.members.Descriptor.{Descriptor};
ghost use Rattle.drv_chains.specs.declared.members.QueueHead.{QueueHead};
ghost use Rattle.drv_chains.specs.declared.members.Member.{Member};
ghost use Rattle.drv_chains.specs.Chains.{Schedule, of_lists, has_name, id_of, chain};
ghost use Rattle.drv_members.specs.Members.{IsMember, is_linked, with_queue, with_descriptor};
ghost use Rattle.drv_periodic.specs.declared.work.Work.{Work};
ghost use Rattle.drv_periodic.specs.Periodic.{Periodic, new_list, inserting, removing, after_store};
ghost use Rattle.claims_driver.specs.FrameWords.{IsInOrder};
ghost use Rattle.law_frame_words.specs.frame_words.Laws.{StaysStanding, LeadOn, BeginsToInsert, BeginsToRemove};

/// The members stay in order, and what is under way has one of them.
pub fn the_list_stays_in_order()
    ensures empty { (list q d : ℕ) → IsInOrder (new_list list q d) }
    ensures insert { (p : Periodic) → (m : Member) → IsInOrder p → IsMember m → has_name p.members.schedule (id_of m) ≡ false → IsInOrder (inserting p m) }
    ensures remove { (p : Periodic) → (m : Member) → IsInOrder p → IsMember m → is_linked p.members.schedule m ≡ true → IsInOrder (removing p m) }
    ensures store { (p : Periodic) → IsInOrder p → IsInOrder (after_store p) }
{}

/// Where the words stand for the list, they stand for it after the next store.
pub fn each_store_keeps_the_words()
    ensures { (p : Periodic) → StaysStanding p }
{}

/// While a member is linked or unlinked, the words of each frame lead to the new chain where its store was made, else to the old one.
pub fn frames_while_under_way()
    ensures { (list : ℕ) → (s : Schedule) → (w : Work) → (word : ℕ → ℕ) → LeadOn list s w word }
{}

/// What is begun stands for the words as they are: nothing is stored. A new member's own link must lead to the one that will be behind it.
pub fn beginning_changes_no_word()
    ensures insert { (p : Periodic) → (m : Member) → BeginsToInsert p m }
    ensures remove { (p : Periodic) → (m : Member) → BeginsToRemove p m }
{}

/// A new queue head comes in each frame behind those of its period that were opened before it, a new descriptor ahead of all others.
pub fn members_come_in_order()
    ensures queues { (ds : List Descriptor) → (qs : List QueueHead) → (q : QueueHead) → (f : ℕ) → chain (of_lists ds (with_queue qs q)) f ≡ chain (of_lists ds (qs ++ q ∷ [])) f }
    ensures descriptors { (ds : List Descriptor) → (d : Descriptor) → (qs : List QueueHead) → (f : ℕ) → chain (of_lists (with_descriptor ds d) qs) f ≡ chain (of_lists (d ∷ ds) qs) f }
{}
