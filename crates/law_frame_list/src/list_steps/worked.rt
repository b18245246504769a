//! A worked row, which the check computes.
ghost use Rattle.std.specs.Prelude.{◌≡◌, Some, true, false};
ghost use Rattle.drv_chains.specs.declared.members.Member.TheVariants.{Each};
ghost use Rattle.drv_periodic_table.specs.Linking.{may_link, may_unlink, unlinking};
ghost use Rattle.law_frame_words.specs.list_words.Worked.{queue, one_queue};

/// Of a list of one queue head its unlinking may begin; then none of its stores is made, and no other member may be linked or unlinked meanwhile.
pub fn a_step_of_an_unlinking()
    ensures may { may_unlink one_queue (Each queue) ≡ true }
    ensures begun { (unlinking one_queue (Each queue)).work ≡ Some (record { member = Each queue; removes = true; made = 0 }) }
    ensures then { may_unlink (unlinking one_queue (Each queue)) (Each queue) ≡ false }
    ensures other { may_link (unlinking one_queue (Each queue)) (Each queue) ≡ false }
{}
