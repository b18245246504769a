ghost use Rattle.std.specs.Prelude.{◌≡◌, ℕ, Option};
ghost use Rattle.link_words.specs.declared.kinds.Link.{Link};
ghost use Rattle.periodic_walk.specs.Place.{FramePlace};
ghost use Rattle.law_structures.specs.lent_structures.Structures.{StructureSets};
ghost use Rattle.law_frames.specs.Met.{Kind};
ghost use Rattle.law_frames.specs.FrameHand.{Nothing};
ghost use Rattle.law_frames.specs.Frame.{IsFrame};
ghost use Rattle.law_frames.specs.FrameSteps.{EventHappens};
ghost use Rattle.law_frames.specs.Fetches.{CursorIsRead};

use usb_base::Wire;

/// Each event while nothing is in hand leaves a frame, and has one of the effects.
pub fn each_event_with_nothing_in_hand<W: Wire>()
    ensures { (met : ℕ → Option Kind) (parts : StructureSets) → EventHappens W.transacts met parts Nothing }
{}

/// The structure at the address that the cursor's link names is read, which is of the kind that its type tells; at the end of the chain the walk ends.
pub fn cursor_is_read<W: Wire>()
    ensures { CursorIsRead W.transacts }
{}

/// The cursor of a frame leads to no frame span traversal node (3.7).
pub fn no_traversal_node_is_met()
    ensures { (met : ℕ → Option Kind) (parts : StructureSets) (p : FramePlace) (a : ℕ) → IsFrame met parts Nothing p → p.walk.cursor ≡ Link.Fstn a → ⊥ }
{}
