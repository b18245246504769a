ghost use Rattle.std.specs.Prelude.{IfSome};
ghost use Rattle.async_walk.specs.Rows.{WalkPlace, at_event, event_row, Leads};
ghost use Rattle.law_ring.specs.walk_writes.Writes.{WritesLent, IsPlaced};

use usb_base::Wire;

/// Each event of the walk leaves the states of blocks, and every word that isn't in a Lent block.
pub fn each_event_writes_lent_words<W: Wire>()
    ensures { (p : WalkPlace) (wire : W) (new : WalkPlace) (after : W) → IfSome p.walk.held IsPlaced → Leads W.transacts (event_row p) (at_event p) wire new after
        → WritesLent p.memory new.memory }
{}
