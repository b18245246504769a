//! Worked rows of how the ring counts NAKs, and of the rows of events, which the check computes.
ghost use Rattle.std.specs.Prelude.{◌≡◌, [], ◌∷◌, true, false, None, Some};
ghost use Rattle.usb_base.specs.declared.endpoints.EndCause.TheVariants as causes;
ghost use Rattle.usb_base.specs.declared.packets.EpKind.TheVariants.{Control, Bulk};
ghost use Rattle.usb_base.specs.declared.packets.Pid.TheVariants as pids;
ghost use Rattle.usb_base.specs.declared.packets.Reply.TheVariants.{Silent, Bytes, Hand};
ghost use Rattle.toggle_error.specs.declared.host.Outcome.TheVariants.{Moved, Discarded, Nak, Wait, Error, Halt};
ghost use Rattle.hc_copy.specs.Samples.{moving, bulk_in, bulk_out, setup, full_in, full_out, ring_head, counted};
ghost use Rattle.async_walk.specs.declared.state.ReloadMode.TheVariants.{WaitHead, Reload, WaitStart};
ghost use Rattle.async_walk.specs.Naks.{planned, may_work, next_mode, mode_after, reloaded, counts, naks_after, counted_queue};
ghost use Rattle.async_walk.specs.Samples.{in_hand, was_settled};
ghost use Rattle.async_walk.specs.Rows.{walk_row};
ghost use Rattle.async_walk.specs.declared.rows.WalkRow.TheVariants as rows;

/// A NAK counts one down, and so does a NYET to data that were taken; a NYET to a complete-split counts nothing, nor does any answer
/// where RL is 0 (EHCI 1.0, 4.9).
#[tactic(auto, unfolding(crate::specs::Naks::counted_queue))]
pub fn naks_counted()
    ensures nak { counts Nak (Hand pids.Nak) ≡ true }
    ensures nyet { counts (Moved 512) (Hand pids.Nyet) ≡ true }
    ensures ack { counts (Moved 512) (Hand pids.Ack) ≡ false }
    ensures data { counts (Moved 512) (Bytes pids.Data0 (1 ∷ [])) ≡ false }
    ensures complete_split_nyet { counts Wait (Hand pids.Nyet) ≡ false }
    ensures ping_ack { counts Wait (Hand pids.Ack) ≡ false }
    ensures discarded { counts Discarded (Bytes pids.Data0 []) ≡ false }
    ensures silent { counts Error Silent ≡ false }
    ensures stall { counts (Halt causes.Stall) (Hand pids.Stall) ≡ false }
    ensures four { naks_after true (counted 4 4) ≡ 3 }
    ensures last { naks_after true (counted 4 1) ≡ 0 }
    ensures none_left { naks_after true (counted 4 0) ≡ 0 }
    ensures not_counted { naks_after true (counted 0 5) ≡ 5 }
    ensures other { naks_after false (counted 4 4) ≡ 4 }
    ensures queue { counted_queue true (counted 4 4) ≡ counted 4 3 }
{}

/// Whether a queue head may work: its NAKs aren't counted, or some are left (4.9).
pub fn may_it_work()
    ensures uncounted { may_work (counted 0 0) ≡ true }
    ensures some_left { may_work (counted 4 1) ≡ true }
    ensures used_up { may_work (counted 4 0) ≡ false }
{}

/// The reload modes: of one microframe the first read of the head and what is read after it, up to the second, are reloaded (4.9).
#[tactic(auto, unfolding(crate::specs::Naks::reloaded))]
pub fn reloads()
    ensures first { next_mode WaitHead ≡ Reload }
    ensures second { next_mode Reload ≡ WaitStart }
    ensures third { next_mode WaitStart ≡ WaitStart }
    ensures three_reads { mode_after ring_head (mode_after ring_head (mode_after ring_head WaitHead)) ≡ WaitStart }
    ensures another { mode_after bulk_in Reload ≡ Reload }
    ensures before_the_head { reloaded (mode_after bulk_in WaitHead) (counted 4 0) ≡ counted 4 0 }
    ensures after_the_head { reloaded (mode_after bulk_in (mode_after ring_head WaitHead)) (counted 4 0) ≡ counted 4 4 }
    ensures in_the_next_turn { reloaded (mode_after bulk_in (mode_after ring_head (mode_after ring_head WaitHead))) (counted 4 0) ≡ counted 4 0 }
{}

/// The kind of an endpoint of the ring (3.6.2, DTC).
pub fn kinds()
    ensures bulk { (planned bulk_in).pipe.kind ≡ Bulk }
    ensures control { (planned setup).pipe.kind ≡ Control }
{}

/// The row of a copy in hand: its transaction, or the end of the part where that costs more than is left, or its write-back.
pub fn rows_of_a_copy()
    ensures in_time { walk_row (in_hand bulk_in 10880343) ≡ rows.Transact (planned bulk_in) }
    ensures late { walk_row (in_hand bulk_in 10880342) ≡ rows.OutOfTime }
    ensures ping_in_time { walk_row (in_hand (bulk_out true) 927769) ≡ rows.Transact (planned (bulk_out true)) }
    ensures out_late { walk_row (in_hand (bulk_out false) 10880342) ≡ rows.OutOfTime }
    ensures start_in_time { walk_row (in_hand (full_in false) 927769) ≡ rows.Transact (planned (full_in false)) }
    ensures complete_late { walk_row (in_hand (full_in true) 927769) ≡ rows.OutOfTime }
    ensures halted { walk_row (in_hand ring_head 125000000) ≡ rows.Skip }
    ensures used_up { walk_row (in_hand (counted 4 0) 125000000) ≡ rows.Skip }
    ensures settled { walk_row (was_settled bulk_in (Moved 3)) ≡ rows.WriteBack }
{}
