//! A worked row: of a driver with an iTD that was unlinked, beside the frame list and the head of the ring, before the controller's first microframe.
ghost use Rattle.std.specs.Prelude.{◌≡◌, Some, None};
ghost use Rattle.mem_runs.specs.Book.{holding, Stands};
ghost use Rattle.drv_periodic_table.specs.declared.content.Removed.TheVariants as removed;
ghost use Rattle.drv_table.specs.declared.rows.DriverRow.TheVariants as rows;
ghost use Rattle.drv_table.specs.Rows.{driver_row};
ghost use Rattle.claims_driver.specs.Owners.{views_of};
ghost use Rattle.claims_driver.specs.Leaving.{HasOwners};
ghost use Rattle.law_driver.specs.listed_members.Members.{IsListed};
ghost use Rattle.law_structures.specs.lent_structures.Structures.{Isochronous};
ghost use Rattle.law_ring.specs.Hand.{Empty};
ghost use Rattle.claims_base.specs.Controller.{opening_base};
ghost use Rattle.law_driver_ring.specs.PartOpened.{opening_parts, is_head};
ghost use Rattle.law_frames.specs.FrameHand.{Nothing};
ghost use Rattle.law_controller.specs.frame_control.Both.{RunsBoth};
ghost use Rattle.law_descriptors.specs.Both.{both};
ghost use Rattle.law_descriptors.specs.Told.{IsToldBy, with_memory, as_parts};
ghost use Rattle.law_descriptors.specs.Meeting.{no_recent, met};
ghost use Rattle.law_descriptors.specs.Recent.{AreRecent};
ghost use Rattle.law_descriptors.specs.Returned.{IsGivenBack};
ghost use Rattle.law_descriptors.specs.Given.{without_owners, begins_at, after_release};
ghost use Rattle.law_descriptors.specs.GivenWorked.{itd, driver, memory, controller, descs};

/// The driver's next row gives the iTD back; all that the release asks for holds.
pub fn an_itd_is_to_go()
    ensures row { driver_row (as_parts controller driver) ≡ rows.ReleaseRemoved (removed.Descriptor 0) }
    ensures given { IsGivenBack (as_parts controller driver) (removed.Descriptor 0) }
    ensures owners { HasOwners driver }
    ensures listed { IsListed driver }
    ensures stands { Stands (holding driver.book memory) }
    ensures recent { AreRecent driver 0 no_recent }
    ensures told { IsToldBy (views_of driver) descs opening_parts }
    ensures runs { RunsBoth opening_base is_head (met driver no_recent) (both descs opening_parts) Empty Nothing controller }
{}

/// So it is told before, and not after it, and the controller goes on.
pub fn an_itd_is_given_back()
    ensures before { both descs opening_parts 4160 4160 ≡ Some (Isochronous itd) }
    ensures after { both (without_owners descs (begins_at 130)) opening_parts 4160 4160 ≡ None }
    ensures runs { RunsBoth opening_base is_head (met (after_release (removed.Descriptor 0) (as_parts controller driver)).driver no_recent)
        (both (without_owners descs (begins_at 130)) opening_parts) Empty Nothing (with_memory controller (after_release (removed.Descriptor 0) (as_parts controller driver)).memory) }
{}
