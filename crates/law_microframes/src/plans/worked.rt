//! Worked rows: a camera below hub 9, whose isochronous endpoint of 179 bytes is placed from microframe 1 of each frame on.
ghost use Rattle.std.specs.Prelude.{◌≡◌, [], ◌∷◌};
ghost use Rattle.usb_base.specs.declared.packets.Dir.TheVariants.{In};
ghost use Rattle.usb_base.specs.declared.packets.EpKind.TheVariants.{Iso};
ghost use Rattle.law_translator.specs.Plans.{sum_at};
ghost use Rattle.claims_world.specs.HubPlans.{plan_at};
ghost use Rattle.law_microframes.specs.plans.Samples.{filmed, filmed_twice};

/// It has 188 byte-times in microframe 1 of each frame, and none before or after; another translator has no plan.
pub fn a_camera_is_planned()
    ensures keys { (plan_at filmed 9 0 0).keys ≡ record { addr = 4; ep = 1; dir = In; kind = Iso } ∷ [] }
    ensures before { sum_at (plan_at filmed 9 0 0) 0 (plan_at filmed 9 0 0).keys ≡ 0 }
    ensures first { sum_at (plan_at filmed 9 0 0) 1 (plan_at filmed 9 0 0).keys ≡ 188 }
    ensures later { sum_at (plan_at filmed 9 0 0) 2 (plan_at filmed 9 0 0).keys ≡ 0 }
    ensures other_frame { sum_at (plan_at filmed 9 0 7) 1 (plan_at filmed 9 0 7).keys ≡ 188 }
    ensures other_hub { (plan_at filmed 8 0 0).keys ≡ [] }
{}

/// Two of them in one microframe are 376 byte-times, which no run has.
pub fn two_cameras_in_one_microframe()
    ensures sum { sum_at (plan_at filmed_twice 9 0 0) 1 (plan_at filmed_twice 9 0 0).keys ≡ 376 }
{}
