//! Worked values of the definitions, which the check computes.
ghost use Rattle.std.specs.Prelude.{◌≡◌, ℕ, [], ◌∷◌, Some, None};
ghost use Rattle.drv_chains.specs.declared.members.Predecessor.TheVariants.{Element, After};
ghost use Rattle.drv_periodic.specs.Periodic.{address_of, block_of, link_to, new_list, inserting, next_store};
ghost use Rattle.claims_driver.specs.FrameWords.{Leads, set_all};
ghost use Rattle.law_frame_words.specs.frame_words.InWords.{with_value};
ghost use Rattle.law_frame_words.specs.frame_words.Worked.{queue, itd, ends};

/// Addresses of words, and link words.
pub fn addresses()
    ensures element { address_of 2 (Element 3) ≡ 76 }
    ensures queue_head { address_of 0 (After queue) ≡ 4160 }
    ensures block { block_of 0 (After queue) ≡ 130 }
    ensures descriptor { link_to (Some itd) ≡ 4480 }
    ensures end { link_to None ≡ 1 }
{}

/// Words with link words stored.
pub fn words()
    ensures stored { set_all 0 (Element 3 ∷ Element 11 ∷ []) 4162 ends 44 ≡ 4162 }
    ensures other { set_all 0 (Element 3 ∷ Element 11 ∷ []) 4162 ends 16 ≡ 1 }
    ensures one { with_value ends 12 4162 12 ≡ 4162 }
{}

/// One store leads a frame to a queue head.
#[tactic(auto, unfolding(claims_driver::specs::FrameWords::Leads))]
pub fn one_frame()
    ensures led { Leads 0 (with_value ends 12 4162) (Element 3) (queue ∷ []) }
    ensures not_yet { Leads 0 (with_value ends 12 4162) (Element 11) [] }
{}
