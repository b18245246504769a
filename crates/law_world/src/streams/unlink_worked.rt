//! Worked rows: a ring of two bulk endpoints, the older in block 130 and the newer in block 140, and the older is cancelled; and an endpoint with its queue head in
//! block 1 that has left and is to be given back.
ghost use Rattle.std.specs.Prelude.{◌≡◌, ◌*◌, true, false};
ghost use Rattle.drv_table.specs.declared.rows.DriverRow.TheVariants as rows;
ghost use Rattle.drv_table.specs.Rows.{driver_row};
ghost use Rattle.law_queues.specs.publish_laws.Stores.{next_of};
ghost use Rattle.law_world.specs.steps.unlinked_streams.Samples.{cancelling};
ghost use Rattle.law_world.specs.steps.left_queues.Samples.{cleared_parts};
ghost use Rattle.law_world.specs.streams.Feeding.{there_of};

/// Before the store that unlinks the older and after it the queue heads of both are there, and no other.
pub fn both_are_there()
    ensures older { there_of cancelling.driver 4160 ≡ true }
    ensures newer { there_of cancelling.driver 4480 ≡ true }
    ensures older_then { there_of (next_of cancelling).driver 4160 ≡ true }
    ensures newer_then { there_of (next_of cancelling).driver 4480 ≡ true }
    ensures other { there_of (next_of cancelling).driver 4192 ≡ false }
{}

/// The release of the endpoint is due. Its queue head is there until then, and no more after it.
pub fn a_release_is_due()
    ensures row { driver_row cleared_parts ≡ rows.ReleaseEndpoint 0 }
    ensures before { there_of cleared_parts.driver 32 ≡ true }
    ensures after { there_of (next_of cleared_parts).driver 32 ≡ false }
{}
