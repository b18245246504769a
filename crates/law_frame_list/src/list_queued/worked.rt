//! A worked row, which the check computes.
ghost use Rattle.std.specs.Prelude.{◌≡◌, true, Some};
ghost use Rattle.drv_chains.specs.declared.members.Member.TheVariants.{Once};
ghost use Rattle.drv_chains.specs.Chains.{chain, first_of};
ghost use Rattle.drv_periodic.specs.Periodic.{link_to};
ghost use Rattle.drv_periodic_table.specs.Linking.{may_link, linking};
ghost use Rattle.law_frame_list.specs.list_queued.Worked.{with_places, in_three};

/// In a list with one queue head of every eighth frame, from frame 3 on, in block 130: a descriptor of frame 3 leads to it, and one of frame 4 to the end;
/// and so does the latter once the first is linked.
pub fn descriptors_lead_on()
    ensures may { may_link with_places (Once in_three) ≡ true }
    ensures three { link_to (first_of (chain with_places.members.schedule 3)) ≡ 4162 }
    ensures four { link_to (first_of (chain with_places.members.schedule 4)) ≡ 1 }
    ensures still { link_to (first_of (chain (linking with_places (Once in_three)).members.schedule 4)) ≡ 1 }
    ensures first { first_of (chain (linking with_places (Once in_three)).members.schedule 3) ≡ Some (Once in_three) }
{}
