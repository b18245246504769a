//! Worked rows of what a visit makes of a queue head, which the check computes.
ghost use Rattle.std.specs.Prelude.{◌≡◌, ◌∷◌, [], true, false};
ghost use Rattle.usb_base.specs.declared.endpoints.EndCause.TheVariants as causes;
ghost use Rattle.usb_base.specs.declared.packets.EpKind.TheVariants.{Bulk, Control, Interrupt};
ghost use Rattle.usb_base.specs.declared.packets.DataPart.TheVariants.{All};
ghost use Rattle.usb_base.specs.declared.packets.Pid.TheVariants as pids;
ghost use Rattle.usb_base.specs.declared.packets.Reply.TheVariants.{Silent, Bytes, Hand};
ghost use Rattle.usb_base.specs.declared.packets.Split.TheVariants.{Plain, Start, Complete};
ghost use Rattle.link_words.specs.Links.{no_qtd};
ghost use Rattle.link_words.specs.declared.kinds.QtdLink.TheVariants.{End, To};
ghost use Rattle.toggle_error.specs.declared.host.Outcome.TheVariants.{Moved, Nak, Wait, Error, Halt};
ghost use Rattle.hc_copy.specs.declared.held.Visit.TheVariants.{Rest, Work, Take};
ghost use Rattle.hc_copy.specs.Visits.{visit_of};
ghost use Rattle.hc_copy.specs.Planning.{pid_at, carries, transaction_of};
ghost use Rattle.hc_copy.specs.Overlay.{advanced, pages_of, buffer_place, moved};
ghost use Rattle.hc_copy.specs.Buffer.{placed};
ghost use Rattle.hc_copy.specs.WriteBack.{moved_by, received, is_short, is_error, interrupts};
ghost use Rattle.hc_copy.specs.Samples.{moving, bulk_in, bulk_out, setup, full_in, full_out, ring_head, counted, done, short_qtd};

/// What there is to do at a queue head (EHCI 1.0, 4.10 and 4.10.2).
pub fn visits()
    ensures active { visit_of true bulk_in ≡ Work }
    ensures may_not { visit_of false bulk_in ≡ Rest }
    ensures halted { visit_of true ring_head ≡ Rest }
    ensures halted_and_active { visit_of true (record bulk_in { token = record moving { halted = true } }) ≡ Rest }
    ensures short { visit_of true (done 3 false) ≡ Take (To 0x10A0) }
    ensures short_without_alternate { visit_of true (done 3 true) ≡ Take (To 0x1080) }
    ensures whole { visit_of true (done 0 false) ≡ Take (To 0x1080) }
    ensures last { visit_of true (record bulk_in { token = record moving { active = false; total = 0 }; next = no_qtd }) ≡ Take End }
    ensures may_not_and_done { visit_of false (done 0 false) ≡ Rest }
{}

/// A qTD is taken: the toggle and the ping state stay the queue head's, but for the toggle with DTC 1 and the ping state below high speed
/// (4.10.2).
#[tactic(auto, unfolding(crate::specs::Overlay::advanced))]
pub fn qtds_taken()
    ensures whole { advanced (counted 4 1) 0x1080 short_qtd
        ≡ record bulk_in {
          rl = 4;
          nak_cnt = 4;
          current = 0x1080;
          next = no_qtd;
          alternate = record { t = false; address = 0x10C0 };
          token = record moving { ioc = true; total = 18 };
          offset = 0x123;
          page0 = 0x20;
          c_prog = 0;
          page1 = 0x21;
          frame_tag = 0;
          s_bytes = 0;
          page2 = 0x22;
          page3 = 0x23;
          page4 = 0x24;
        } }
    ensures toggle_kept { (advanced bulk_in 0x1080 short_qtd).token.toggle ≡ true }
    ensures toggle_taken { (advanced (record bulk_in { dtc = true }) 0x1080 short_qtd).token.toggle ≡ false }
    ensures ping_kept { (advanced bulk_in 0x1080 short_qtd).token.ping ≡ false }
    ensures ping_taken { (advanced (record bulk_in { eps = 0 }) 0x1080 short_qtd).token.ping ≡ true }
{}

/// The transaction that comes next, what goes out with it and its price (USB 2.0, 5.11.3).
pub fn transactions_planned()
    ensures in_split { (transaction_of Bulk bulk_in).split ≡ Plain }
    ensures in_bytes { (transaction_of Bulk bulk_in).bytes ≡ 0 }
    ensures in_price { (transaction_of Bulk bulk_in).price.0 ≡ 10880343 }
    ensures out_bytes { (transaction_of Bulk (bulk_out false)).bytes ≡ 512 }
    ensures out_price { (transaction_of Bulk (bulk_out false)).price.0 ≡ 10880343 }
    ensures ping_bytes { (transaction_of Bulk (bulk_out true)).bytes ≡ 0 }
    ensures ping_price { (transaction_of Bulk (bulk_out true)).price.0 ≡ 927769 }
    ensures setup_bytes { (transaction_of Control setup).bytes ≡ 8 }
    ensures setup_pid { (transaction_of Control setup).pipe.pid ≡ pids.Setup }
    ensures start { (transaction_of Bulk (full_out false)).split ≡ Start 9 2 All }
    ensures start_bytes { (transaction_of Bulk (full_out false)).bytes ≡ 64 }
    ensures complete { (transaction_of Bulk (full_out true)).split ≡ Complete 9 2 }
    ensures complete_bytes { (transaction_of Bulk (full_out true)).bytes ≡ 0 }
    ensures complete_price { (transaction_of Bulk (full_out true)).price.0 ≡ 927769 }
    ensures start_of_in { (transaction_of Bulk (full_in false)).bytes ≡ 0 }
    ensures start_of_in_price { (transaction_of Bulk (full_in false)).price.0 ≡ 927769 }
    ensures complete_of_in_price { (transaction_of Interrupt (full_in true)).price.0 ≡ 2171320 }
    ensures start_is_not_pinged { carries (Start 9 2 All) pids.Out true ≡ true }
{}

/// The place in the buffer: the page rises where its end is reached, and page 4 is the last (3.5.4).
#[tactic(auto, unfolding(crate::specs::Overlay::moved))]
pub fn places_moved()
    ensures place { buffer_place bulk_in ≡ 4093 }
    ensures within { moved bulk_in 2 ≡ record bulk_in { offset = 0xFFF } }
    ensures nothing { moved bulk_in 0 ≡ bulk_in }
    ensures to_the_end { moved bulk_in 3 ≡ record bulk_in { offset = 0; token = record moving { c_page = 1 } } }
    ensures over_the_end { moved bulk_in 5 ≡ record bulk_in { offset = 2; token = record moving { c_page = 1 } } }
    ensures in_the_last { moved (record bulk_in { offset = 0; token = record moving { c_page = 4 } }) 512 ≡ record bulk_in { offset = 512; token = record moving { c_page = 4 } } }
    ensures past_the_last { moved (record bulk_in { token = record moving { c_page = 4 } }) 5 ≡ record bulk_in { offset = 2; token = record moving { c_page = 4 } } }
    ensures three_placed { placed (pages_of bulk_in) 20477 (1 ∷ 2 ∷ 3 ∷ 4 ∷ 5 ∷ []) ≡ 1 ∷ 2 ∷ 3 ∷ [] }
    ensures all_placed { placed (pages_of bulk_in) 4093 (1 ∷ 2 ∷ 3 ∷ 4 ∷ 5 ∷ []) ≡ 1 ∷ 2 ∷ 3 ∷ 4 ∷ 5 ∷ [] }
{}

/// What was moved and received: an OUT receives nothing, whatever it moved.
pub fn bytes_received()
    ensures moved { moved_by (Moved 3) ≡ 3 }
    ensures nak { moved_by Nak ≡ 0 }
    ensures received { received bulk_in (Moved 3) (Bytes pids.Data1 (7 ∷ 8 ∷ 9 ∷ [])) ≡ 7 ∷ 8 ∷ 9 ∷ [] }
    ensures halted { received bulk_in (Halt causes.Babble) (Bytes pids.Data1 (7 ∷ 8 ∷ 9 ∷ [])) ≡ [] }
    ensures sent { received (bulk_out false) (Moved 512) (Hand pids.Ack) ≡ [] }
    ensures codes { (pid_at 0 ∷ pid_at 1 ∷ pid_at 2 ∷ []) ≡ pids.Out ∷ pids.In ∷ pids.Setup ∷ [] }
{}

/// The USB interrupt is raised where the qTD ended and has IOC, or its last packet was short; the error interrupt at each error (4.15.1).
/// An OUT isn't short.
pub fn interrupts_raised()
    ensures active { interrupts (record bulk_in { token = record moving { ioc = true } }) (Moved 512) ≡ false }
    ensures ended { interrupts (done 0 true) (Moved 512) ≡ false }
    ensures ended_with_ioc { interrupts (record bulk_in { token = record moving { active = false; ioc = true } }) (Moved 512) ≡ true }
    ensures ended_short { interrupts (done 3 true) (Moved 511) ≡ true }
    ensures nak_is_not_short { is_short bulk_in Nak ≡ false }
    ensures out_is_not_short { is_short (bulk_out false) (Moved 3) ≡ false }
    ensures error { is_error Error ≡ true }
    ensures halt { is_error (Halt causes.Babble) ≡ true }
    ensures wait { is_error Wait ≡ false }
    ensures moved { is_error (Moved 3) ≡ false }
{}
