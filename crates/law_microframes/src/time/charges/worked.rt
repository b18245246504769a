//! Worked rows: copies in hand of two placed endpoints, and what an event costs with them.
ghost use Rattle.std.specs.Prelude.{◌≡◌, [], None, Some, true};
ghost use Rattle.usb_base.specs.declared.packets.Pid.TheVariants.{Data2};
ghost use Rattle.usb_base.specs.declared.packets.Reply.TheVariants.{Bytes, Silent};
ghost use Rattle.toggle_error.specs.declared.host.Outcome.TheVariants.{Moved};
ghost use Rattle.hc_interrupt.specs.Samples.{high_in};
ghost use Rattle.hc_iso.specs.Itd.{fetched_itd};
ghost use Rattle.hc_iso.specs.Samples.{itd};
ghost use Rattle.periodic_walk.specs.Samples.{queue};
ghost use Rattle.periodic_walk.specs.declared.state.Hand.TheVariants.{Queue, Itd};
ghost use Rattle.law_budgets.specs.visit_prices.Prices.{after};
ghost use Rattle.law_microframes.specs.time.Charges.{charge, IsHeadInHand, TakesData, IsHeldFor, BeginsHead, BeginsItd};
ghost use Rattle.law_microframes.specs.time.ChargeSamples.{interrupt_in, iso_in, head_at, itd_at, head_fetch, itd_fetch};

/// A copy of a queue head in a microframe of its S-mask: just fetched; after the last of three transactions, of which each may cost 2.2 microseconds; and just fetched in a microframe
/// that isn't its own.
pub fn queue_heads_in_hand()
    ensures begun { IsHeadInHand interrupt_in (queue high_in 0 None) 40 }
    ensures full { IsHeldFor interrupt_in 44 (Queue (queue high_in 3 (Some (Moved 64)))) 3600000 }
    ensures other { IsHeadInHand interrupt_in (queue high_in 0 None) 41 }
    ensures taken { TakesData (head_at 40 0 None) (Queue (queue high_in 0 None)) }
{}

/// A copy of a descriptor in the microframe of its active slot, and in the next.
pub fn descriptors_in_hand()
    ensures own { IsHeldFor iso_in 2 (Itd (fetched_itd 0x1000 2 (itd true 3072))) 0 }
    ensures other { IsHeldFor iso_in 3 (Itd (fetched_itd 0x1000 3 (itd true 3072))) 0 }
{}

/// The one and the other are fetched from memory.
pub fn fetches_of_both()
    ensures head { BeginsHead interrupt_in (head_fetch 40) 32 high_in }
    ensures descriptor { BeginsItd iso_in (itd_fetch 2) 32 (itd true 3072) }
{}

/// A transaction of the queue head costs 2.2 microseconds, whatever is heard. Its write-back costs nothing, and nor does an event in another microframe.
pub fn charges_of_queue_heads()
    ensures transaction { charge (head_at 40 0 None) (after (head_at 40 0 None) Silent) ≡ 2171320 }
    ensures settled { charge (head_at 40 1 (Some (Moved 64))) (after (head_at 40 1 (Some (Moved 64))) Silent) ≡ 0 }
    ensures other { charge (head_at 41 0 None) (after (head_at 41 0 None) Silent) ≡ 0 }
{}

/// A packet of the descriptor costs 20.6 microseconds in the microframe of its active slot, and nothing in the next.
pub fn charges_of_descriptors()
    ensures own { charge (itd_at 2) (after (itd_at 2) (Bytes Data2 [])) ≡ 20551712 }
    ensures other { charge (itd_at 3) (after (itd_at 3) Silent) ≡ 0 }
{}
