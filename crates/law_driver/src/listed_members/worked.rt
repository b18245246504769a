//! Worked rows of the definitions, which the check computes, of the driver that `run_owners` has for them.
ghost use Rattle.std.specs.Prelude.{◌≡◌, true, false, [], ◌∷◌, Some, None};
ghost use Rattle.drv_members.specs.Members.{is_linked};
ghost use Rattle.drv_table.specs.declared.content.Command.TheVariants as unfinished;
ghost use Rattle.law_driver.specs.run_owners.Worked.{busy_endpoints, busy_transfers, busy_schedule, busy_driver};
ghost use Rattle.claims_driver.specs.FrameListMembers.{framed_in, is_chained, placed_in, is_among, member_of};
ghost use Rattle.law_driver.specs.listed_members.Members.{is_in_names, is_linked_by, to_come};

/// Endpoints and descriptors as the frame list has them: the harvested descriptor waits no more, a transfer with qTDs is none.
pub fn placed_rows()
    ensures in_frames { is_chained (framed_in busy_endpoints 1) ≡ true }
    ensures in_ring { is_chained (framed_in busy_endpoints 0) ≡ false }
    ensures transfer { placed_in busy_endpoints busy_transfers 0 ≡ None }
    ensures harvested { placed_in busy_endpoints busy_transfers 1 ≡ Some (record { endpoint = 2; block = 138; waits = false }) }
    ensures waits { placed_in busy_endpoints busy_transfers 2 ≡ Some (record { endpoint = 2; block = 140; waits = true }) }
    ensures unlinked_next { is_among 1 busy_driver.periodic.unlinks ≡ true }
{}

/// Their members: a siTD in block 140 has the name 4,484, and is one of the list's.
pub fn member_rows()
    ensures linked { is_linked busy_schedule (member_of busy_driver.periodic (record { endpoint = 2; block = 140; waits = true })) ≡ true }
    ensures named { is_in_names 4484 (member_of busy_driver.periodic (record { endpoint = 2; block = 140; waits = true }) ∷ []) ≡ true }
{}

/// A command that links descriptors from transfer 2 on: before their frames are chosen none of them is linked; afterwards those are that aren't queued.
/// One by which endpoint 2 leaves its frames: those that are queued aren't unlinked yet; other endpoints stay.
pub fn command_rows()
    ensures idle { is_linked_by None 0 busy_driver.periodic 2 (record { endpoint = 2; block = 140; waits = true }) ≡ true }
    ensures older { is_linked_by (Some (unfinished.Iso 2 2 1)) 0 busy_driver.periodic 1 (record { endpoint = 2; block = 138; waits = true }) ≡ true }
    ensures new { is_linked_by (Some (unfinished.Iso 2 2 1)) 0 busy_driver.periodic 2 (record { endpoint = 2; block = 140; waits = true }) ≡ false }
    ensures linked { is_linked_by (Some (unfinished.Iso 2 2 1)) 2 busy_driver.periodic 2 (record { endpoint = 2; block = 140; waits = true }) ≡ true }
    ensures unlinked { is_linked_by (Some (unfinished.Unchain 2)) 0 busy_driver.periodic 2 (record { endpoint = 2; block = 140; waits = true }) ≡ false }
    ensures others { is_linked_by (Some (unfinished.Unchain 1)) 0 busy_driver.periodic 2 (record { endpoint = 2; block = 140; waits = true }) ≡ true }
    ensures to_link { to_come (Some (unfinished.Iso 2 2 1)) 0 [] ≡ 1 }
    ensures none_to_link { to_come (Some (unfinished.Iso 2 2 1)) 2 [] ≡ 0 }
{}
