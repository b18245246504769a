//! Worked rows: the placements of three endpoints, of which one has none and one was given back; and the queue heads of two frames.
ghost use Rattle.std.specs.Prelude.{◌≡◌, [], ◌∷◌};
ghost use Rattle.drv_chains.specs.Chains.{of_lists};
ghost use Rattle.claims_driver.specs.DueMembers.{queues_of};
ghost use Rattle.law_driver.specs.planned_endpoints.Planned.{planned};
ghost use Rattle.law_driver.specs.planned_endpoints.Worked.{opened, bulk, given_back, counted, polled};

/// A bulk endpoint has no placement; of two isochronous ones that stand behind it the second counts once the first was given back.
pub fn three_endpoints()
    ensures both { planned 0 (bulk ∷ opened 1 ∷ opened 2 ∷ []) ≡ counted 1 ∷ counted 2 ∷ [] }
    ensures one { planned 0 (bulk ∷ given_back 1 ∷ opened 2 ∷ []) ≡ counted 2 ∷ [] }
{}

/// A queue head of every second frame, from frame 1 on, and one of every frame: both are due in frame 1, the longer period first, and the
/// second alone in frame 2.
pub fn two_frames()
    ensures one { queues_of (of_lists [] (polled 34 16 1 ∷ polled 66 8 0 ∷ [])) 1 ≡ polled 34 16 1 ∷ polled 66 8 0 ∷ [] }
    ensures two { queues_of (of_lists [] (polled 34 16 1 ∷ polled 66 8 0 ∷ [])) 2 ≡ polled 66 8 0 ∷ [] }
{}
