//! Worked rows: a camera and a keyboard below hub 9.
ghost use Rattle.std.specs.Prelude.{◌≡◌, [], ◌∷◌};
ghost use Rattle.std.specs.List.{AllByRecursion};
ghost use Rattle.bandwidth.specs.Worked.{camera, keyboard};
ghost use Rattle.law_translator.specs.Plans.{laid_at, sum_at};
ghost use Rattle.law_translator.specs.hub_plans.HubPlans.{AreKeysApart};
ghost use Rattle.claims_world.specs.HubPlans.{placed_below, hub_plan};
ghost use Rattle.law_translator.specs.hub_plans.Laws.{IsPlacedRight};
ghost use Rattle.law_translator.specs.hub_plans.Samples.{key_in, sample_key, camera_in_1, keyboard_in_0, a_plan, too_much};

/// The keyboard has 77 byte-times in microframe 0, and the camera 188 in microframe 1: each below 188. In another frame the same,
/// and another translator has no plan.
pub fn a_camera_beside_a_keyboard()
    ensures right { AllByRecursion IsPlacedRight a_plan }
    ensures apart { AreKeysApart sample_key (placed_below 9 0 0 a_plan) }
    ensures keyboard { sum_at (hub_plan sample_key 9 0 0 a_plan) 0 (hub_plan sample_key 9 0 0 a_plan).keys ≡ 77 }
    ensures camera { sum_at (hub_plan sample_key 9 0 0 a_plan) 1 (hub_plan sample_key 9 0 0 a_plan).keys ≡ 188 }
    ensures after { sum_at (hub_plan sample_key 9 0 0 a_plan) 2 (hub_plan sample_key 9 0 0 a_plan).keys ≡ 0 }
    ensures first { (hub_plan sample_key 9 0 0 a_plan).first (key_in (camera 179)) ≡ 1 }
    ensures time { (hub_plan sample_key 9 0 0 a_plan).times (key_in keyboard) ≡ 77 }
    ensures other { (hub_plan sample_key 9 1 0 a_plan).keys ≡ [] }
{}

/// Both in microframe 1 are 265 byte-times, which breaks the budget, and so the plan doesn't fit.
pub fn both_in_one_microframe()
    ensures sum { sum_at (hub_plan sample_key 9 0 0 too_much) 1 (hub_plan sample_key 9 0 0 too_much).keys ≡ 265 }
{}
