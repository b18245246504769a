//! Worked rows of the footprints, which the check computes.
ghost use Rattle.std.specs.Prelude.{◌≡◌, true, false, [], ◌∷◌, None, Ok, Err};
ghost use Rattle.usb_base.specs.declared.commands.Cmd.TheVariants.{Cancel};
ghost use Rattle.usb_base.specs.declared.reports.OfferError.TheVariants.{Busy};
ghost use Rattle.word_mem.specs.Memory.{Mem};
ghost use Rattle.op_registers.specs.RegisterFile.{RegisterFile};
ghost use Rattle.drv_table.specs.declared.content.Reserve.{Reserve};
ghost use Rattle.drv_table.specs.declared.content.Transfer.{Transfer};
ghost use Rattle.drv_table.specs.declared.rows.DriverRow.TheVariants as rows;
ghost use Rattle.drv_table.specs.declared.rows.Found.TheVariants as founds;
ghost use Rattle.drv_table.specs.CancelOffers.{accepted_cancel};
ghost use Rattle.drv_table.specs.Offers.{offered};
ghost use Rattle.law_footprints.specs.Changes.{TransfersStep};
ghost use Rattle.law_footprints.specs.Footprint.{footprint, merged, offer_footprint};
ghost use Rattle.law_footprints.specs.Worked.{bulk_in, a_get, cancelled, passes_over, passed_over, working, idle};

/// The store that takes an endpoint out of the ring: its footprint has who waits for the doorbell and the endpoints, and these change;
/// it hasn't the transfers, and these stay.
pub fn a_store_takes_it_out()
    ensures named { (room : Reserve) (r : RegisterFile) (m : Mem)
        → (footprint passes_over (cancelled room r m).driver.command).waiting ≡ true }
    ensures waits { (room : Reserve) (r : RegisterFile) (m : Mem) → (passed_over room r m).driver.waiting ≡ 0 ∷ [] }
    ensures leaves { (room : Reserve) (r : RegisterFile) (m : Mem)
        → (passed_over room r m).driver.endpoints ≡ record bulk_in { linked = false } ∷ [] }
    ensures unnamed { (room : Reserve) (r : RegisterFile) (m : Mem)
        → (footprint passes_over (cancelled room r m).driver.command).transfers ≡ false }
    ensures stays { (room : Reserve) (r : RegisterFile) (m : Mem) → (passed_over room r m).driver.transfers ≡ a_get ∷ [] }
{}

/// The premise counts: told that no command is unfinished, the footprint misses who waits, and what it names gives another content.
pub fn the_command_tells()
    ensures unnamed { (footprint passes_over None).waiting ≡ false }
    ensures missed { (room : Reserve) (r : RegisterFile) (m : Mem)
        → (merged (footprint passes_over None) (cancelled room r m) (passed_over room r m)).driver.waiting ≡ [] }
{}

/// A cancel is accepted: its footprint has the endpoints, and not the transfers. While a command is unfinished it isn't.
pub fn a_cancel_is_accepted()
    ensures accepted { (room : Reserve) (m : Mem)
        → offered (idle room) m (Cancel working.desc.name) ≡ Ok (record { driver = accepted_cancel (idle room) 0 working; memory = m }) }
    ensures named { (offer_footprint (Cancel working.desc.name)).endpoints ≡ true }
    ensures ends { (room : Reserve) → (accepted_cancel (idle room) 0 working).endpoints ≡ bulk_in ∷ [] }
    ensures unnamed { (offer_footprint (Cancel working.desc.name)).transfers ≡ false }
    ensures stays { (room : Reserve) → (accepted_cancel (idle room) 0 working).transfers ≡ a_get ∷ [] }
    ensures refused { (room : Reserve) (r : RegisterFile) (m : Mem)
        → offered (cancelled room r m).driver m (Cancel working.desc.name) ≡ Err Busy }
{}

/// A harvest changes no transfer where the qTD isn't done, and does where it is.
pub fn harvests_told()
    ensures active { (footprint (rows.Harvest 0 0 founds.Active) None).transfers ≡ false }
    ensures moved { (footprint (rows.Harvest 0 0 (founds.Moved 512)) None).transfers ≡ true }
{}

/// No way of a change takes a transfer out of the list.
pub fn transfers_stay_listed()
    ensures { (x : Transfer) → TransfersStep (x ∷ []) [] → ⊥ }
{}
