//! Worked rows.
ghost use Rattle.std.specs.Prelude.{◌≡◌, [], ◌∷◌, false, Some, None};
ghost use Rattle.usb_base.specs.declared.packets.Way.TheVariants.{Out};
ghost use Rattle.usb_base.specs.declared.packets.EpKind.TheVariants.{Bulk, Control};
ghost use Rattle.bus_wire.specs.Bus.{fixed_of, opening_bus, opening_wired};
ghost use Rattle.law_devices.specs.scripted_takers.Takers.{taker_of_device, taker_of};
ghost use Rattle.claims_report.specs.Reports.{Pending, Taken};
ghost use Rattle.claims_report.specs.Samples.{receiver, bulk, report_of as report_with};
ghost use Rattle.bus_world.specs.Opening.{opening_world};
ghost use Rattle.claims_world.specs.Streams.{device_closing, report_of, IsToldTaken};
ghost use Rattle.law_world.specs.streams.Asynchronous.{AreTakenStreams};
ghost use Rattle.law_world.specs.streams.right_reports.Samples.{both_ways};
ghost use Rattle.law_world.specs.streams.taken_reports.Seats.{HasSeat, IsSeatedBus};
ghost use Rattle.law_world.specs.streams.taken_reports.Samples.{told_with, ended_with, took};

/// What is told begins what was taken. Where nothing says what was taken, nothing is told.
pub fn of_the_words()
    ensures begins { IsToldTaken (7 ∷ []) (Some (7 ∷ 9 ∷ [])) }
    ensures other { IsToldTaken (9 ∷ []) (Some (7 ∷ 9 ∷ [])) → ⊥ }
    ensures nothing { IsToldTaken [] None }
    ensures unsaid { IsToldTaken (7 ∷ []) None → ⊥ }
{}

/// A put of a byte is done: the device took it, or more, as where the last acknowledgement was lost. A report in which it took another byte, or in which
/// nothing says what it took, is not so; nor is one in which something is pending at an endpoint that halted. Before its open nothing is told of the endpoint.
pub fn a_put_of_a_byte()
    ensures taken { AreTakenStreams both_ways (told_with (Taken receiver (9 ∷ []) ∷ [])) }
    ensures more { AreTakenStreams both_ways (told_with (Taken receiver (9 ∷ 8 ∷ []) ∷ [])) }
    ensures other { AreTakenStreams both_ways (told_with (Taken receiver (8 ∷ []) ∷ [])) → ⊥ }
    ensures unsaid { AreTakenStreams both_ways (told_with []) → ⊥ }
    ensures halted { AreTakenStreams both_ways (ended_with (Taken receiver (9 ∷ []) ∷ [])) }
    ensures pending { AreTakenStreams both_ways (ended_with (Pending receiver 1 ∷ Taken receiver (9 ∷ []) ∷ [])) → ⊥ }
    ensures before { AreTakenStreams both_ways (report_with [] [] []) }
{}

/// The bus of a device with an IN endpoint and an OUT one: each has its seat, the taker of the OUT endpoint took nothing yet, and the report is so.
pub fn before_the_first_line()
    ensures seated { IsSeatedBus both_ways (fixed_of both_ways) (opening_bus both_ways) }
    ensures unseated { HasSeat [] (bulk receiver) → ⊥ }
    ensures taker { taker_of (opening_wired both_ways) 3 2 ≡ Some (record { taken = []; expects = false }) }
    ensures report { AreTakenStreams both_ways (report_of (fixed_of both_ways) (opening_world both_ways)) }
{}

/// A closing line tells what the taker took; there is none of it where the endpoint is neither a bulk nor an interrupt one.
pub fn a_closing_line()
    ensures taker { taker_of_device 3 2 (Some (took (9 ∷ []))) ≡ Some (record { taken = 9 ∷ []; expects = false }) }
    ensures line { device_closing Out Bulk receiver (took (9 ∷ [])) ≡ Taken receiver (9 ∷ []) ∷ [] }
    ensures none { device_closing Out Control receiver (took (9 ∷ [])) ≡ [] }
{}
