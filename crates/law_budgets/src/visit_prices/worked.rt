//! Worked rows: what a visit to a descriptor of three packets costs, and whether there is time for it.
ghost use Rattle.std.specs.Prelude.{◌≡◌, [], ◌∷◌, true, false};
ghost use Rattle.usb_base.specs.declared.packets.Pid.TheVariants.{Data0, Data1, Data2};
ghost use Rattle.usb_base.specs.declared.packets.Reply.TheVariants.{Bytes, Silent};
ghost use Rattle.hc_iso.specs.Samples.{begun};
ghost use Rattle.periodic_walk.specs.Samples.{at_hand};
ghost use Rattle.periodic_walk.specs.declared.state.Hand.TheVariants.{Itd};
ghost use Rattle.law_budgets.specs.visit_prices.Prices.{prices};
ghost use Rattle.law_budgets.specs.visit_prices.Time.{late_in};

/// An IN of up to three packets of 1,024 bytes costs 20.6 microseconds for each packet that is asked for: three where each comes, one where
/// the first doesn't come, and nothing more once the visit is over.
pub fn three_packets()
    ensures all { prices (at_hand (Itd (begun true 3072)) 2 125000000) (Bytes Data2 [] ∷ Bytes Data1 [] ∷ Bytes Data0 [] ∷ Silent ∷ Silent ∷ []) ≡ 20551712 ∷ 20551712 ∷ 20551712 ∷ [] }
    ensures one { prices (at_hand (Itd (begun true 3072)) 2 125000000) (Silent ∷ Silent ∷ Silent ∷ []) ≡ 20551712 ∷ [] }
{}

/// With 62 microseconds left there is time for all three packets, with 41.2 the third is skipped, with 20 the first.
pub fn late_packets()
    ensures none { late_in (at_hand (Itd (begun true 3072)) 2 62000000) (Bytes Data2 [] ∷ Bytes Data1 [] ∷ Bytes Data0 [] ∷ []) ≡ false }
    ensures first { late_in (at_hand (Itd (begun true 3072)) 2 20000000) (Silent ∷ []) ≡ true }
    ensures third { late_in (at_hand (Itd (begun true 3072)) 2 41200000) (Bytes Data2 [] ∷ Bytes Data1 [] ∷ Bytes Data0 [] ∷ []) ≡ true }
{}
