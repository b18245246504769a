//! Worked rows: the premises computed, and what the laws say of them.
ghost use Rattle.std.specs.Prelude.{◌≡◌, ℕ, ◌≤◌, [], ◌∷◌, Ok, Err};
ghost use Rattle.usb_base.specs.declared.commands.Cmd.TheVariants.{OpenEp};
ghost use Rattle.usb_base.specs.declared.reports.OfferError.TheVariants.{NoPlacement};
ghost use Rattle.word_mem.specs.Memory.{Mem};
ghost use Rattle.bandwidth.specs.Placements.{allowed};
ghost use Rattle.bandwidth.specs.Sums.{cost_in, load};
ghost use Rattle.bandwidth.specs.Admission.{joined};
ghost use Rattle.drv_periodic_table.specs.Periodic.{want_of};
ghost use Rattle.drv_table.specs.declared.content.Reserve.{Reserve};
ghost use Rattle.drv_table.specs.Offers.{offered, accepted_iso};
ghost use Rattle.drv_table.specs.Opening.{opening};
ghost use Rattle.law_admission.specs.Worked.{camera, each_microframe, with_first};

/// The one placement of the endpoint, and the sums of one and of two such endpoints: 61.7 and 123.3 microseconds of 100.
#[tactic(auto, unfolding(bandwidth::specs::Placements::mask, bandwidth::specs::Placements::allowed))]
pub fn cameras_placed()
    ensures places { allowed (want_of 0 (camera 1)) ≡ each_microframe ∷ [] }
    ensures cost { cost_in (want_of 0 (camera 1)) each_microframe 7 ≡ 61655136 }
    ensures one { load (joined [] (want_of 0 (camera 1)) each_microframe) 0 ≡ 61655136 }
    ensures two { load (joined (joined [] (want_of 0 (camera 1)) each_microframe) (want_of 1 (camera 2)) each_microframe) 0 ≡ 123310272 }
{}

/// Just built, the driver accepts the first, with its one placement.
#[tactic(auto, using(crate::proofs::Cameras::first_accepted))]
pub fn first_camera_is_accepted()
    ensures { (n : ℕ) (room : Reserve) (m : Mem) → 1 ≤ room.endpoints → offered (opening n room).driver m (OpenEp (camera 1)) ≡ Ok (with_first n room m) }
{}

/// The second finds no placement.
#[tactic(auto, using(crate::proofs::Cameras::second_refused))]
pub fn second_camera_is_refused()
    ensures { (n : ℕ) (room : Reserve) (m : Mem) → 2 ≤ room.endpoints → offered (accepted_iso (opening n room).driver (camera 1) each_microframe) m (OpenEp (camera 2)) ≡ Err NoPlacement }
{}
