//! Worked rows: a content of each kind of endpoint, as its queues tell it.
ghost use Rattle.std.specs.Prelude.{◌≡◌, ◌∷◌, true, false, [], take, slice_get, option_map, Some, None};
ghost use Rattle.usb_base.specs.declared.packets.EpKind.TheVariants as kinds;
ghost use Rattle.drv_table.specs.declared.content.Command.TheVariants as unfinished;
ghost use Rattle.drv_table.specs.declared.content.Sort.TheVariants as sorts;
ghost use Rattle.drv_table.specs.declared.rows.DriverRow.TheVariants as rows;
ghost use Rattle.drv_periodic_table.specs.declared.content.Removed.TheVariants as removed;
ghost use Rattle.drv_table.specs.Opening.{opening_registers, opening_memory};
ghost use Rattle.drv_table.specs.Rows.{after_driver_row};
ghost use Rattle.law_driver.specs.run_owners.Worked.{interrupt, busy_endpoints, busy_driver, get_out, descriptor};
ghost use Rattle.law_driver.specs.queued_drivers.Queued.{queued, queued_command, queued_made};
ghost use Rattle.law_driver.specs.queued_drivers.Rows.{out_of_frames};

/// A bulk endpoint is told as it is, an interrupt one as a bulk one in the ring, and an isochronous one as one that was given back, with its descriptors.
pub fn queues_told()
    ensures bulk { slice_get (queued busy_driver).endpoints 0 ≡ slice_get busy_endpoints 0 }
    ensures interrupt { slice_get (queued busy_driver).endpoints 1
        ≡ Some (record { desc = record interrupt { kind = kinds.Bulk }; placement = None; queue = 136; dummy = 135; next = None; ended = None; cancelled = false; linked = true; chained = false; gone = false }) }
    ensures isochronous { option_map (λ x. x.gone) (slice_get (queued busy_driver).endpoints 2) ≡ Some true }
    ensures nothing { option_map (λ x. x.next) (slice_get (queued busy_driver).endpoints 2) ≡ Some None }
    ensures get { slice_get (queued busy_driver).transfers 0 ≡ Some get_out }
    ensures descriptor { slice_get (queued busy_driver).transfers 2 ≡ Some (record (descriptor 140) { sort = sorts.Get; reported = true; released = true }) }
{}

/// A queue head that is to be linked in frames is told as one of the ring, and its stores in the frame list as none; descriptors are none at all.
pub fn commands_told()
    ensures chain { queued_command (take 2 busy_endpoints) (Some unfinished.Chain) ≡ Some (unfinished.Open 136) }
    ensures stores { queued_made (Some unfinished.Chain) 5 ≡ 1 }
    ensures iso { queued_command busy_endpoints (Some (unfinished.Iso 2 1 2)) ≡ None }
    ensures unchain { queued_command busy_endpoints (Some (unfinished.Unchain 1)) ≡ None }
    ensures unlink { queued_command busy_endpoints (Some (unfinished.Unlink 0 128 2)) ≡ Some (unfinished.Unlink 0 128 2) }
{}

/// Where the interrupt endpoint is given back it is out of the ring, as one whose Async Advance was cleared; a descriptor that is given back changes nothing.
pub fn rows_told()
    ensures out { option_map (λ x. x.linked) (slice_get (queued (after_driver_row (rows.ReleaseRemoved (removed.Endpoint 1)) (record { driver = busy_driver; registers = opening_registers; memory = opening_memory 2048 })).driver).endpoints 1)
        ≡ Some false }
    ensures cleared { (out_of_frames (queued busy_driver) 1).cleared ≡ 1 ∷ [] }
    ensures before { option_map (λ x. x.linked) (slice_get (out_of_frames (queued busy_driver) 1).endpoints 1) ≡ Some false }
    ensures descriptor { (queued (after_driver_row (rows.ReleaseRemoved (removed.Descriptor 1)) (record { driver = busy_driver; registers = opening_registers; memory = opening_memory 2048 })).driver).transfers ≡ (queued busy_driver).transfers }
{}
