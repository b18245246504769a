//! A worked row.
ghost use Rattle.std.specs.Prelude.{◌≡◌, Some, None};
ghost use Rattle.drv_chains.specs.declared.members.Member.TheVariants.{Once};
ghost use Rattle.law_frame_list.specs.list_closed.Worked.{itd};
ghost use Rattle.law_frames.specs.Met.{Kind, AQueue, AnItd};
ghost use Rattle.law_descriptors.specs.Meeting.{standing_in, no_recent};
ghost use Rattle.law_descriptors.specs.ListRows.{leaves_now, recent_with};
ghost use Rattle.law_descriptors.specs.RowWorked.{leaving, stored};

/// An iTD is unlinked by one store: it stands until then, and from then on it is recent; the queue head behind it stands on.
pub fn an_itd_that_leaves_is_recent()
    ensures before { standing_in leaving 4480 ≡ Some AnItd }
    ensures leaves { leaves_now leaving.list ≡ Some (Once itd) }
    ensures after { standing_in stored 4480 ≡ None }
    ensures recent { recent_with leaving (leaves_now leaving.list) no_recent 4480 ≡ Some AnItd }
    ensures behind { standing_in stored 4160 ≡ Some AQueue }
{}
