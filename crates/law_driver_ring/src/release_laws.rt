//! The laws.
ghost use Rattle.law_driver_ring.specs.Extents.{ExtentsStay, WalkKeepsExtents};
ghost use Rattle.law_driver_ring.specs.Following.{ExtentsFollow};
ghost use Rattle.law_driver_ring.specs.Released.{ReleaseDrives};

use usb_base::Wire;

/// Where a transfer was harvested, and nothing that stays leads to its qTDs or needs its buffers, its blocks are given back under the walk.
pub fn release_drives()
    ensures { ReleaseDrives }
{}

/// An event of the walk leaves how far buffers and tables reach.
pub fn walk_keeps_extents<W: Wire>()
    ensures { WalkKeepsExtents W.transacts }
{}

/// So they stay in their runs, as long as the driver has these; and so they do where the driver has more runs that aren't lent yet.
pub fn extents_stay_in_their_runs()
    ensures stay { ExtentsStay }
    ensures follow { ExtentsFollow }
{}
