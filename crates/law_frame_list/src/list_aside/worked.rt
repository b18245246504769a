//! Worked rows, which the check computes.
ghost use Rattle.std.specs.Prelude.{◌≡◌, [], true, false, None, Some};
ghost use Rattle.drv_table.specs.declared.content.Command.TheVariants as unfinished;
ghost use Rattle.drv_table.specs.declared.rows.DriverRow.TheVariants as rows;
ghost use Rattle.law_frame_list.specs.list_aside.Elsewhere.{is_elsewhere};

/// The store of a qTD's word goes elsewhere, and one of an interrupt endpoint's linking doesn't; the release of an endpoint does.
pub fn which_events_store_elsewhere()
    ensures publishes { is_elsewhere (Some (unfinished.Publish 132 [])) (rows.Store 132 4224 1) ≡ true }
    ensures links { is_elsewhere (Some unfinished.Chain) (rows.Store 0 12 4162) ≡ false }
    ensures releases { is_elsewhere None (rows.ReleaseEndpoint 0) ≡ true }
{}
