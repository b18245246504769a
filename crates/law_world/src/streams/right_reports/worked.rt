//! Worked rows.
ghost use Rattle.std.specs.Prelude.{◌≡◌, List, [], ◌∷◌};
ghost use Rattle.script_types.specs.declared.devices.Item.TheVariants.{Bytes};
ghost use Rattle.claims_report.specs.Reports.{Pending};
ghost use Rattle.claims_report.specs.Samples.{script_of, sender, bulk};
ghost use Rattle.claims_report.specs.Samples.{AreRightStreams};
ghost use Rattle.bus_wire.specs.Bus.{fixed_of};
ghost use Rattle.law_driver.specs.chained_transfers.Bulk.{BulkOnly};
ghost use Rattle.law_driver.specs.chained_transfers.Receives.{ReceivesOnly};
ghost use Rattle.bus_world.specs.Opening.{opening_world};
ghost use Rattle.claims_world.specs.Streams.{waiting_closing, report_of};
ghost use Rattle.law_world.specs.streams.Asynchronous.{AreRightInStreams};
ghost use Rattle.law_world.specs.streams.right_reports.Samples.{both_ways, told_by, cancelling, halted_by};

/// A line tells what is pending, and none tells nothing.
pub fn closing_lines()
    ensures some { waiting_closing sender 2 ≡ Pending sender 2 ∷ [] }
    ensures none { waiting_closing sender 0 ≡ [] }
{}

/// A script whose one endpoint is a high-speed bulk IN one: before its first line nothing is told.
pub fn before_the_first_line()
    ensures bulk { BulkOnly (script_of (bulk sender) (Bytes (1 ∷ 2 ∷ []) ∷ []) []) }
    ensures receives { ReceivesOnly (script_of (bulk sender) (Bytes (1 ∷ 2 ∷ []) ∷ []) []) }
    ensures right { AreRightStreams (script_of (bulk sender) (Bytes (1 ∷ 2 ∷ []) ∷ []) [])
        (report_of (fixed_of (script_of (bulk sender) (Bytes (1 ∷ 2 ∷ []) ∷ []) [])) (opening_world (script_of (bulk sender) (Bytes (1 ∷ 2 ∷ []) ∷ []) []))) }
{}

/// A script of an IN endpoint and an OUT one: it is of bulk endpoints, and doesn't only receive.
pub fn an_in_and_an_out()
    ensures bulk { BulkOnly both_ways }
    ensures not_receiving { ReceivesOnly both_ways → ⊥ }
    ensures opening { AreRightInStreams both_ways (report_of (fixed_of both_ways) (opening_world both_ways)) }
    ensures right { AreRightInStreams both_ways (told_by (1 ∷ 2 ∷ 9 ∷ [])) }
    ensures out { AreRightStreams both_ways (told_by (1 ∷ 2 ∷ 9 ∷ [])) → ⊥ }
    ensures wrong { AreRightInStreams both_ways (told_by (1 ∷ 3 ∷ 9 ∷ [])) → ⊥ }
{}

/// A script that cancels its endpoint is of bulk endpoints too: what its line tells begins the packets, whether all of them had come or none.
pub fn a_cancel()
    ensures bulk { BulkOnly cancelling }
    ensures all { AreRightInStreams cancelling (halted_by (1 ∷ 2 ∷ []) 2) }
    ensures none { AreRightInStreams cancelling (halted_by [] 0) }
    ensures wrong { AreRightInStreams cancelling (halted_by (1 ∷ 3 ∷ []) 2) → ⊥ }
{}
