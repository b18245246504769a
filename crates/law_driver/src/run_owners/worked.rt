//! Worked rows of the definitions, which the check computes: a driver with three endpoints, a transfer that is out, and two descriptors.
ghost use Rattle.std.specs.Prelude.{◌≡◌, true, false, [], ◌∷◌, slice_get, Some, None};
ghost use Rattle.drv_table.specs.declared.content.Command.TheVariants as unfinished;
ghost use Rattle.drv_periodic_table.specs.declared.content.Removed.TheVariants as removed;
ghost use Rattle.drv_table.specs.Commands.{removal_of};
ghost use Rattle.claims_driver.specs.Owners.{endpoint_in, transfer_in, note_in, descriptor_in};
ghost use Rattle.claims_driver.specs.Leaving.{times, transfers_in, endpoints_in, owes, leaves_ring, leaves_frames, leaver};
ghost use Rattle.law_driver.specs.run_owners.Worked.{busy_endpoints, busy_transfers, busy_notes, busy_descriptors};

/// What endpoints, transfers and notes tell of runs: the isochronous endpoint has no queue, and its descriptors are siTDs.
pub fn runs_told()
    ensures queue { endpoint_in busy_endpoints 0 ≡ Some (record { queue = 130; dummy = 133; bare = false }) }
    ensures none { endpoint_in busy_endpoints 2 ≡ Some (record { queue = 0; dummy = 0; bare = true }) }
    ensures transfer { transfer_in busy_transfers 0 ≡ Some (record { endpoint = 0; first = 132; qtds = 1; isochronous = false; released = false }) }
    ensures piece { note_in busy_notes 132 ≡ record { next = 133; buffer = 134 ∷ [] } }
    ensures descriptor { descriptor_in busy_descriptors 140 ≡ record { split = true; buffer = 152 ∷ [] } }
{}

/// What is owed: the harvested descriptor its release, and nothing else. Its unlinking tells it once; a removal of the endpoint tells the endpoint.
pub fn releases_owed()
    ensures waiting { owes (slice_get busy_transfers 0) ≡ 0 }
    ensures harvested { owes (slice_get busy_transfers 1) ≡ 1 }
    ensures once { times 1 (transfers_in (removal_of (removed.Descriptor 1) ∷ removal_of (removed.Endpoint 2) ∷ [])) ≡ 1 }
    ensures endpoint { endpoints_in (removal_of (removed.Descriptor 1) ∷ removal_of (removed.Endpoint 2) ∷ []) ≡ 2 ∷ [] }
    ensures in_ring { leaves_ring (slice_get busy_endpoints 0) ≡ 0 }
    ensures in_frames { leaves_frames (slice_get busy_endpoints 1) ≡ 0 }
    ensures leaving { leaver (Some (unfinished.Unchain 1)) ≡ Some 1 }
    ensures nobody { leaver (Some unfinished.Chain) ≡ None }
{}
