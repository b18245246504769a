//! Worked rows.
ghost use Rattle.std.specs.Prelude.{◌≡◌, ◌∷◌, []};
ghost use Rattle.usb_base.specs.declared.endpoints.EndCause.TheVariants as causes;
ghost use Rattle.usb_base.specs.declared.reports.What.TheVariants as lines;
ghost use Rattle.drv_table.specs.declared.rows.DriverRow.TheVariants as rows;
ghost use Rattle.drv_table.specs.declared.rows.Found.TheVariants as founds;
ghost use Rattle.drv_table.specs.Rows.{driver_row, after_driver_row};
ghost use Rattle.claims_driver.specs.Owners.{note_in};
ghost use Rattle.law_driver.specs.chained_transfers.Out.{out_now};
ghost use Rattle.law_driver.specs.chained_transfers.WorkedRequests.{control, request_driver, request_parts};
ghost use Rattle.law_queues.specs.mended_heads.Stalling.{IsStall};
ghost use Rattle.law_queues.specs.fed_harvests.Stalls.{out_told};

/// The status of a request, in block 134, is found stalled; the SETUP and the status of another request wait behind it, in blocks 135 and 137. Of both requests
/// the first qTD that is out is out no more.
#[tactic(auto, unfolding(drv_table::specs::Harvesting::behind, qh_qtd::specs::Token::token_at))]
pub fn a_stall_takes_two_out()
    ensures row { driver_row request_parts ≡ rows.Harvest 0 0 (founds.Ended 0 (lines.Halt causes.Stall)) }
    ensures stall { IsStall control.kind (founds.Ended 0 (lines.Halt causes.Stall)) }
    ensures was { out_now request_driver 0 ≡ 4288 ∷ 4320 ∷ 4384 ∷ [] }
    ensures told { out_told (note_in request_driver.notes) 0 request_driver.transfers ≡ 4384 ∷ [] }
    ensures now { out_now (after_driver_row (driver_row request_parts) request_parts).driver 0 ≡ 4384 ∷ [] }
{}
