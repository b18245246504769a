//! A worked row, which the check computes.
ghost use Rattle.std.specs.Prelude.{◌≡◌, true, [], ◌∷◌};
ghost use Rattle.drv_chains.specs.declared.members.Member.TheVariants.{Once, Each};
ghost use Rattle.drv_chains.specs.declared.members.Predecessor.TheVariants.{After};
ghost use Rattle.drv_chains.specs.Chains.{stands_in};
ghost use Rattle.drv_members.specs.Members.{is_linked};
ghost use Rattle.link_words.specs.declared.kinds.Link.{Link};
ghost use Rattle.link_words.specs.Links.{link_read};
ghost use Rattle.claims_driver.specs.FrameWords.{made_of};
ghost use Rattle.law_frame_list.specs.list_closed.Closed.{link_met};
ghost use Rattle.law_frame_list.specs.list_closed.Worked.{queue, itd, both, work, half};

/// A queue head is linked in every eighth frame from frame 3 on, in which an iTD stands ahead of it. Its first store is made, and leads the iTD to it; in the
/// next of its frames the element still ends the chain.
#[tactic(auto, unfolding(crate::specs::list_closed::Closed::link_met, link_words::specs::Links::link_read, drv_chains::specs::Chains::predecessors, drv_chains::specs::Chains::word_after, drv_chains::specs::Chains::before_the, drv_chains::specs::Order::frames))]
pub fn a_half_linked_queue_head()
    ensures linked { is_linked both (Each queue) ≡ true }
    ensures stands { stands_in 3 (Each queue) ≡ true }
    ensures ahead { stands_in 3 (Once itd) ≡ true }
    ensures element { link_met half 12 0 ≡ 4480 }
    ensures behind { link_met half 12 1 ≡ 4162 }
    ensures last { link_met half 12 2 ≡ 1 }
    ensures descriptor { link_read (link_met half 12 0) ≡ Link.Itd 4480 }
    ensures structure { link_read (link_met half 12 1) ≡ Link.Qh 4160 }
    ensures end { link_read (link_met half 12 2) ≡ Link.End }
    ensures later { link_met half 44 0 ≡ 1 }
    ensures made { made_of both work ≡ After (Once itd) ∷ [] }
{}
