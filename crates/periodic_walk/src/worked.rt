//! Worked rows of the events of a frame's chain, which the check computes.
ghost use Rattle.std.specs.Prelude.{◌≡◌, ◌∷◌, [], true, false, None, Some};
ghost use Rattle.usb_base.specs.declared.packets.Pid.TheVariants as pids;
ghost use Rattle.usb_base.specs.declared.packets.Reply.TheVariants.{Silent, Bytes, Hand as Handshake};
ghost use Rattle.link_words.specs.declared.kinds.Link.TheVariants as links;
ghost use Rattle.toggle_error.specs.declared.host.Outcome.TheVariants.{Moved, Error};
ghost use Rattle.hc_interrupt.specs.Turns.{planned};
ghost use Rattle.hc_interrupt.specs.Samples.{high_in, split_in};
ghost use Rattle.hc_iso.specs.declared.held.IsoEnd.TheVariants.{Whole};
ghost use Rattle.hc_iso.specs.declared.held.SplitOutcome.TheVariants.{Nothing};
ghost use Rattle.hc_iso.specs.Itd.{itd_transaction};
ghost use Rattle.hc_iso.specs.Sitd.{sitd_transaction};
ghost use Rattle.hc_iso.specs.Samples.{begun, split_in as sitd_in};
ghost use Rattle.periodic_walk.specs.declared.chain.ChainRow.TheVariants as chain_rows;
ghost use Rattle.periodic_walk.specs.declared.queue.QueueRow.TheVariants as queue_rows;
ghost use Rattle.periodic_walk.specs.declared.itd.ItdRow.TheVariants as itd_rows;
ghost use Rattle.periodic_walk.specs.declared.sitd.SitdRow.TheVariants as sitd_rows;
ghost use Rattle.periodic_walk.specs.declared.state.Hand.TheVariants.{Queue, Sitd};
ghost use Rattle.periodic_walk.specs.Chain.{chain_row};
ghost use Rattle.periodic_walk.specs.Queue.{queue_row, visit_after};
ghost use Rattle.periodic_walk.specs.Itd.{itd_row, got_after};
ghost use Rattle.periodic_walk.specs.Sitd.{sitd_row};
ghost use Rattle.periodic_walk.specs.Samples.{no_memory, at_hand, queue, failed, held_sitd};

/// The end of a chain; and what can't be read, or isn't served, is the fault (EHCI 1.0, 3.7 and 4.6).
pub fn rows_of_a_chain()
    ensures ends { chain_row no_memory links.End ≡ chain_rows.Ends }
    ensures queue_head { chain_row no_memory (links.Qh 0x2000) ≡ chain_rows.Fault }
    ensures itd { chain_row no_memory (links.Itd 0x2000) ≡ chain_rows.Fault }
    ensures sitd { chain_row no_memory (links.Sitd 0x2000) ≡ chain_rows.Fault }
    ensures traversal { chain_row no_memory (links.Fstn 0x2000) ≡ chain_rows.Fault }
{}

/// The row of a queue head in hand: its transaction, or a skip where that costs more than is left, or a miss, or its write-back (4.10.3
/// and 4.12.2.4).
#[tactic(auto, unfolding(hc_masks::specs::Masks::lacks))]
pub fn rows_of_a_queue_head()
    ensures in_time { queue_row (at_hand (Queue (queue high_in 0 None)) 40 2171320) (queue high_in 0 None) ≡ queue_rows.Transact (planned high_in) }
    ensures late { queue_row (at_hand (Queue (queue high_in 0 None)) 40 2171319) (queue high_in 0 None) ≡ queue_rows.Skip }
    ensures another_microframe { queue_row (at_hand (Queue (queue high_in 0 None)) 41 125000000) (queue high_in 0 None) ≡ queue_rows.Skip }
    ensures complete { queue_row (at_hand (Queue (queue (split_in true 4) 0 None)) 43 125000000) (queue (split_in true 4) 0 None) ≡ queue_rows.Transact (planned (split_in true 4)) }
    ensures missed { queue_row (at_hand (Queue (queue (split_in true 0) 0 None)) 43 0) (queue (split_in true 0) 0 None) ≡ queue_rows.Miss }
    ensures settled { queue_row (at_hand (Queue (queue high_in 1 (Some (Moved 64)))) 40 0) (queue high_in 1 (Some (Moved 64))) ≡ queue_rows.WriteBack (Moved 64) }
{}

/// After a write-back the visit goes on, or the link of the copy comes next (3.6.2, 4.10.3 and 4.12.2.4.2).
#[tactic(auto, unfolding(hc_copy::specs::Overlay::moved))]
pub fn visits_after_a_write_back()
    ensures silent { (visit_after failed Error (at_hand (Queue failed) 42 0).walk).hand ≡ Some (Queue (queue (split_in true 4) 1 None)) }
    ensures third { (visit_after (queue high_in 3 (Some (Moved 64))) (Moved 64) (at_hand (Queue (queue high_in 3 (Some (Moved 64)))) 40 0).walk).hand ≡ None }
    ensures link { (visit_after (queue high_in 3 (Some (Moved 64))) (Moved 64) (at_hand (Queue (queue high_in 3 (Some (Moved 64)))) 40 0).walk).cursor ≡ links.Qh 0x1000 }
{}

/// The row of an iTD in hand (4.7.1).
pub fn rows_of_an_itd()
    ensures in_time { itd_row 20551712 (begun true 3072) ≡ itd_rows.Transact (itd_transaction (begun true 3072)) }
    ensures late { itd_row 20551711 (begun true 3072) ≡ itd_rows.Skip }
    ensures inactive { itd_row 125000000 (record (begun true 3072) { slot = record (begun true 3072).slot { active = false } }) ≡ itd_rows.Skip }
    ensures ended { itd_row 0 (record (begun true 3072) { ended = Some Whole }) ≡ itd_rows.WriteBack Whole }
{}

/// The packets of an iTD that came in order are kept for its write-back.
pub fn packets_kept()
    ensures first { got_after (begun true 3072) (Bytes pids.Data2 (1 ∷ 2 ∷ [])) [] ≡ 1 ∷ 2 ∷ [] }
    ensures another { got_after (record (begun true 3072) { made = 1; rest = 2 }) (Bytes pids.Data1 (3 ∷ [])) (1 ∷ 2 ∷ []) ≡ 1 ∷ 2 ∷ 3 ∷ [] }
    ensures wrong { got_after (record (begun true 3072) { made = 1; rest = 2 }) (Bytes pids.Data2 (3 ∷ [])) (1 ∷ 2 ∷ []) ≡ 1 ∷ 2 ∷ [] }
    ensures silent { got_after (begun true 3072) Silent [] ≡ [] }
    ensures out { got_after (begun false 3072) (Handshake pids.Ack) [] ≡ [] }
{}

/// The row of a siTD in hand (4.12.3.3).
#[tactic(auto, unfolding(hc_masks::specs::Masks::lacks))]
pub fn rows_of_a_sitd()
    ensures starts { sitd_row (at_hand (Sitd (held_sitd false None)) 40 644481) (held_sitd false None) ≡ sitd_rows.Transact (sitd_transaction (sitd_in false 200)) }
    ensures late { sitd_row (at_hand (Sitd (held_sitd false None)) 40 644480) (held_sitd false None) ≡ sitd_rows.Skip }
    ensures missed { sitd_row (at_hand (Sitd (held_sitd true None)) 43 0) (held_sitd true None) ≡ sitd_rows.Miss }
    ensures settled { sitd_row (at_hand (Sitd (held_sitd true (Some Nothing))) 40 0) (held_sitd true (Some Nothing)) ≡ sitd_rows.WriteBack Nothing }
{}
