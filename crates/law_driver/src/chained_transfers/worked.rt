//! Worked rows of the definitions, which the check computes.
ghost use Rattle.std.specs.Prelude.{◌≡◌, true, false, [], ◌∷◌, map, drop, Some, None};
ghost use Rattle.usb_base.specs.declared.packets.Way.TheVariants as ways;
ghost use Rattle.usb_base.specs.declared.endpoints.EndCause.TheVariants as causes;
ghost use Rattle.usb_base.specs.declared.reports.What.TheVariants as lines;
ghost use Rattle.drv_table.specs.declared.content.Command.TheVariants as unfinished;
ghost use Rattle.drv_table.specs.declared.content.Bell.TheVariants as bells;
ghost use Rattle.drv_table.specs.declared.rows.DriverRow.TheVariants as rows;
ghost use Rattle.drv_table.specs.declared.rows.Found.TheVariants as founds;
ghost use Rattle.drv_table.specs.Words.{get_stages, put_stages};
ghost use Rattle.drv_table.specs.Opening.{opening_registers};
ghost use Rattle.drv_table.specs.CancelOffers.{accepted_cancel};
ghost use Rattle.drv_table.specs.Commands.{advance};
ghost use Rattle.drv_table.specs.Leaving.{bell_row};
ghost use Rattle.drv_table.specs.Releases.{is_told, let_go};
ghost use Rattle.drv_table.specs.Rows.{driver_row, after_driver_row};
ghost use Rattle.claims_driver.specs.Leaving.{HasOwners};
ghost use Rattle.claims_driver.specs.Scripts.{receives, comes_in};
ghost use Rattle.law_driver.specs.chained_transfers.Bulk.{pid_by};
ghost use Rattle.law_driver.specs.chained_transfers.Accepted.{move_of};
ghost use Rattle.law_driver.specs.chained_transfers.Chains.{piece_at};
ghost use Rattle.law_driver.specs.chained_transfers.Out.{pieces_from, unpublished, out_of};
ghost use Rattle.law_driver.specs.chained_transfers.AsynchronousTurns.{AsynchronousTakesTurns};
ghost use Rattle.law_driver.specs.chained_transfers.WorkedRequests.{control_endpoint, stalled_request, waiting_request, request_driver, request_parts};
ghost use Rattle.law_driver.specs.chained_transfers.Worked.{notes, ended_early, under_way, in_ring, out_of_ring, ring_driver, waiting_driver};

/// The chain goes from a transfer to the next, and on to the inactive qTD at the end of the queue.
pub fn chains()
    ensures second { piece_at notes 132 1 ≡ 140 }
    ensures end { piece_at notes 132 2 ≡ 141 }
    ensures dummy { piece_at notes 141 2 ≡ 143 }
{}

/// What a short packet passed over is still out, and what wasn't harvested of the next transfer; while that is being published, its first qTD isn't.
pub fn published()
    ensures pieces { pieces_from notes 141 2 ≡ 4512 ∷ 4544 ∷ [] }
    ensures both { out_of notes 0 None 0 (ended_early ∷ under_way ∷ []) ≡ 4480 ∷ 4544 ∷ [] }
    ensures others { out_of notes 1 None 0 (ended_early ∷ under_way ∷ []) ≡ [] }
    ensures taken { out_of notes 0 (Some (unfinished.Publish 141 [])) 0 (record under_way { place = 141; left = 2 } ∷ []) ≡ [] }
    ensures lent { out_of notes 0 (Some (unfinished.Publish 141 [])) 1 (record under_way { place = 141; left = 2 } ∷ []) ≡ 4544 ∷ [] }
{}

/// A get of 1,500 bytes asks for what comes to the host, in two qTDs; a put of three bytes sends them in one.
pub fn ways_of_data()
    ensures get { (move_of ways.In 1500 1024 []).stages ≡ get_stages 1500 1024 }
    ensures put { (move_of ways.Out 3 512 (7 ∷ 8 ∷ 9 ∷ [])).stages ≡ put_stages 3 512 }
    ensures comes { receives ways.In ≡ true }
    ensures goes { receives ways.Out ≡ false }
    ensures stream { comes_in ways.In ≡ true }
    ensures none { comes_in ways.Out ≡ false }
    ensures control { comes_in ways.Ctl ≡ false }
    ensures pid_in { pid_by ways.In ≡ 1 }
    ensures pid_out { pid_by ways.Out ≡ 0 }
{}

/// A cancel unlinks the endpoint with one store; it waits, and the doorbell comes next. It is given back with its transfers, and the unreported one is told.
pub fn leaving()
    ensures unlinks { (accepted_cancel ring_driver 0 in_ring).command ≡ Some (unfinished.Unlink 0 128 4098) }
    ensures waits { (advance (accepted_cancel ring_driver 0 in_ring)).endpoints ≡ out_of_ring ∷ [] }
    ensures waiting { (advance (accepted_cancel ring_driver 0 in_ring)).waiting ≡ 0 ∷ [] }
    ensures rings { bell_row waiting_driver opening_registers bells.Quiet ≡ Some rows.RingBell }
    ensures told { is_told out_of_ring ≡ true }
    ensures gone { map (let_go 0 true) (drop 1 waiting_driver.transfers) ≡ record under_way { reported = true; released = true } ∷ [] }
{}

/// The status of a request is found stalled, with another request behind it: both are reported as stalled, and are to be given back in their order; the
/// endpoint has none next, and three words of its queue head are to be stored.
#[tactic(auto, unfolding(drv_table::specs::Harvesting::behind, qh_qtd::specs::Token::token_at))]
pub fn a_request_is_stalled()
    ensures row { driver_row request_parts ≡ rows.Harvest 0 0 (founds.Ended 0 (lines.Halt causes.Stall)) }
    ensures transfers { (after_driver_row (driver_row request_parts) request_parts).driver.transfers ≡ record stalled_request { reported = true } ∷ record waiting_request { reported = true } ∷ [] }
    ensures harvested { (after_driver_row (driver_row request_parts) request_parts).driver.harvested ≡ 0 ∷ 1 ∷ [] }
    ensures endpoint { (after_driver_row (driver_row request_parts) request_parts).driver.endpoints ≡ record control_endpoint { next = None } ∷ [] }
    ensures mends { (after_driver_row (driver_row request_parts) request_parts).driver.mends
        ≡ record { queue = 130; at = 4176; value = 4416 } ∷ record { queue = 130; at = 4180; value = 1 } ∷ record { queue = 130; at = 4184; value = 0 } ∷ [] }
    ensures lines { map (λ r. r.what) (after_driver_row (driver_row request_parts) request_parts).driver.reports ≡ lines.Halt causes.Stall ∷ lines.Halt causes.Stall ∷ [] }
{}

/// Its driver is one of which the laws speak.
pub fn a_stalled_driver_takes_turns()
    ensures owners { HasOwners request_driver }
    ensures turns { AsynchronousTakesTurns request_driver }
{}
