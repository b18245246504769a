//! Worked moments, which the check computes.
ghost use Rattle.std.specs.Prelude.{◌≡◌, true, false, [], ◌∷◌, ◌++◌, map, replicate, Some, None};
ghost use Rattle.usb_base.specs.declared.reports.What.TheVariants as kinds;
ghost use Rattle.word_mem.specs.declared.blocks.BlockState.TheVariants.{Free, Lent};
ghost use Rattle.word_mem.specs.Memory.{word_at};
ghost use Rattle.endpoint_script.specs.Device.{taken_of};
ghost use Rattle.drv_table.specs.declared.content.Command.TheVariants as unfinished;
ghost use Rattle.drv_table.specs.declared.rows.DriverRow.TheVariants as rows;
ghost use Rattle.drv_table.specs.declared.rows.Found.TheVariants as results;
ghost use Rattle.drv_table.specs.Rows.{driver_row};
ghost use Rattle.bus_world.specs.World.{driver_parts};
ghost use Rattle.bus_world.specs.Budgets.{moment};
ghost use Rattle.bus_wire.specs.Bus.{fixed_of};
ghost use Rattle.claims_report.specs.Reports.{taken};
ghost use Rattle.claims_report.specs.Streams.{told, stream};
ghost use Rattle.claims_world.specs.Streams.{report_of};
ghost use Rattle.law_world.specs.worked_streams.small_receiver.Samples.{desc, words, world_at, row_at, over, sink, one_put, put_words, put_at, put_row, lossy_put, lossy_at, one_cancel, cancel_at, cancel_row};

/// The structures of the open are lent: the queue head in block 130, its inactive qTD in block 132. Then the head of the ring, in block 128, gets its link.
pub fn an_open()
    ensures accepted { (world_at 1).driver.command ≡ Some (unfinished.Open 130) }
    ensures none_made { (world_at 1).driver.made ≡ 0 }
    ensures to_lend { row_at 1 ≡ rows.Lend }
    ensures lent { (world_at 2).driver.command ≡ Some (unfinished.Open 130) }
    ensures one_made { (world_at 2).driver.made ≡ 1 }
    ensures to_link { row_at 2 ≡ rows.Store 128 4096 4162 }
    ensures linked { (world_at 3).driver.command ≡ None }
{}

/// The first qTD of the get is to stand in block 132, the end of the queue; a qTD and a buffer were taken for it, which are lent. Its token is stored last.
pub fn a_get()
    ensures asked { (world_at 5).driver.command ≡ Some (unfinished.Publish 132 words) }
    ensures none_made { (world_at 5).driver.made ≡ 0 }
    ensures taken { (world_at 5).driver.book.taken ≡ 133 ∷ 134 ∷ [] }
    ensures to_lend { row_at 5 ≡ rows.Lend }
    ensures lent { (world_at 6).driver.command ≡ Some (unfinished.Publish 132 words) }
    ensures one_made { (world_at 6).driver.made ≡ 1 }
    ensures first_store { row_at 6 ≡ rows.Store 132 4224 4256 }
    ensures last_store { row_at 13 ≡ rows.Store 132 4232 101760 }
    ensures published { (world_at 14).driver.command ≡ None }
{}

/// Seven events of the controller later the qTD is done, with one byte moved, which is told; then the transfer is given back.
pub fn its_end()
    ensures to_harvest { row_at 28 ≡ rows.Harvest 0 0 (results.Ended 1 kinds.Done) }
    ensures told { (world_at 29).driver.reports ≡ record { name = desc.name; what = kinds.Done; from = 0; len = 1 } ∷ [] }
    ensures its_byte { (world_at 29).driver.store ≡ 5 ∷ [] }
    ensures to_return { row_at 30 ≡ rows.ReleaseTransfer 0 }
    ensures rests { row_at 31 ≡ rows.Rest }
{}

/// A short packet ends a get of two qTDs, of which the second is passed over; the next get goes on behind them. Each byte is told once, in order, and all
/// else was given back: the frame list, the head of the ring, the queue head and the inactive qTD at its end have the 133 blocks that are Lent.
pub fn two_gets()
    ensures carried { over.orders ≡ [] }
    ensures told { over.world.driver.reports ≡ record { name = desc.name; what = kinds.Done; from = 0; len = 1 } ∷ record { name = desc.name; what = kinds.Done; from = 1; len = 1 } ∷ [] }
    ensures bytes { over.world.driver.store ≡ 5 ∷ 7 ∷ [] }
    ensures blocks { over.world.memory.states ≡ replicate 133 Lent ++ replicate 123 Free }
    ensures rests { driver_row (driver_parts over.world) ≡ rows.Rest }
{}

/// The first qTD of the put is to stand in block 132, as that of a get. Its bytes are written into a buffer, in block 134, before both are lent.
pub fn a_put()
    ensures asked { (put_at 5).driver.command ≡ Some (unfinished.Publish 132 put_words) }
    ensures none_made { (put_at 5).driver.made ≡ 0 }
    ensures taken { (put_at 5).driver.book.taken ≡ 133 ∷ 134 ∷ [] }
    ensures written { word_at (put_at 5).memory 4288 ≡ 3339 }
    ensures to_lend { put_row 5 ≡ rows.Lend }
    ensures lent { (put_at 6).driver.command ≡ Some (unfinished.Publish 132 put_words) }
    ensures one_made { (put_at 6).driver.made ≡ 1 }
    ensures last_store { put_row 13 ≡ rows.Store 132 4232 167040 }
    ensures published { (put_at 14).driver.command ≡ None }
{}

/// Seven events of the controller later the qTD is done: both bytes are told to be sent, and the transfer is given back. The device has them, once and in order, and
/// of the blocks the first qTD's are Free: the inactive one at the end of the queue stands behind it.
pub fn it_is_sent()
    ensures to_harvest { put_row 28 ≡ rows.Harvest 0 0 (results.Ended 2 kinds.Done) }
    ensures told { (put_at 29).driver.reports ≡ record { name = sink.name; what = kinds.Done; from = 0; len = 2 } ∷ [] }
    ensures its_bytes { (put_at 29).driver.store ≡ 11 ∷ 13 ∷ [] }
    ensures to_return { put_row 30 ≡ rows.ReleaseTransfer 0 }
    ensures rests { put_row 31 ≡ rows.Rest }
    ensures carried { (moment one_put 200).orders ≡ [] }
    ensures sent { map (λ d. taken_of d sink.name) (put_at 200).bus.devices ≡ (11 ∷ 13 ∷ []) ∷ [] }
    ensures blocks { (put_at 200).memory.states ≡ replicate 132 Lent ++ Free ∷ Lent ∷ replicate 122 Free }
{}

/// The acknowledgement of the second of three qTDs is lost: the device has its byte, and the host sends it again, which the device drops by its toggle. At the end each
/// byte was taken once, in its place, and all are told to be sent: what the report tells, what its closing line says was taken, and the stream are the same bytes.
pub fn a_lost_acknowledgement()
    ensures carried { (moment lossy_put 300).orders ≡ [] }
    ensures told { (lossy_at 300).driver.reports ≡ record { name = sink.name; what = kinds.Done; from = 0; len = 3 } ∷ [] }
    ensures its_bytes { (lossy_at 300).driver.store ≡ 11 ∷ 13 ∷ 17 ∷ [] }
    ensures sent { map (λ d. taken_of d sink.name) (lossy_at 300).bus.devices ≡ (11 ∷ 13 ∷ 17 ∷ []) ∷ [] }
    ensures told_in_all { told (report_of (fixed_of lossy_put) (lossy_at 300)) sink.name ≡ 11 ∷ 13 ∷ 17 ∷ [] }
    ensures taken { taken (report_of (fixed_of lossy_put) (lossy_at 300)) sink.name ≡ Some (11 ∷ 13 ∷ 17 ∷ []) }
    ensures put { stream lossy_put (report_of (fixed_of lossy_put) (lossy_at 300)) sink.name ≡ 11 ∷ 13 ∷ 17 ∷ [] }
{}

/// The endpoint is cancelled while the controller has the byte in its copy of the queue head. The head of the ring, in block 128, gets a link to itself, so the queue head is
/// in the ring no more; then the doorbell is rung.
pub fn a_leave()
    ensures accepted { (cancel_at 23).driver.command ≡ Some (unfinished.Unlink 0 128 4098) }
    ensures to_unlink { cancel_row 23 ≡ rows.Store 128 4096 4098 }
    ensures unlinked { (cancel_at 24).driver.command ≡ None }
    ensures waits { (cancel_at 24).driver.waiting ≡ 0 ∷ [] }
    ensures to_ring { cancel_row 24 ≡ rows.RingBell }
    ensures rung { (cancel_at 25).driver.rung ≡ 0 ∷ [] }
{}

/// The controller still writes back to the queue head that has left. Then its walk comes to the head of the ring, where it sets Async Advance: the driver reads that, clears it,
/// and gives the endpoint back. A line tells the cancel with the byte that had come, and its queue head, both qTDs and the buffer are Free.
pub fn its_release()
    ensures not_heard { cancel_row 27 ≡ rows.ReadStatus false }
    ensures heard { cancel_row 29 ≡ rows.ReadStatus true }
    ensures to_clear { cancel_row 31 ≡ rows.ClearAdvance }
    ensures cleared { (cancel_at 32).driver.cleared ≡ 0 ∷ [] }
    ensures to_release { cancel_row 33 ≡ rows.ReleaseEndpoint 0 }
    ensures gone { map (λ e. e.gone) (cancel_at 34).driver.endpoints ≡ true ∷ [] }
    ensures told { (cancel_at 34).driver.reports ≡ record { name = desc.name; what = kinds.Cancel; from = 0; len = 1 } ∷ [] }
    ensures its_byte { (cancel_at 34).driver.store ≡ 5 ∷ [] }
    ensures blocks { (cancel_at 34).memory.states ≡ replicate 130 Lent ++ replicate 126 Free }
    ensures rests { cancel_row 34 ≡ rows.Rest }
    ensures carried { (moment one_cancel 37).orders ≡ [] }
{}
