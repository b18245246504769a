ghost use Rattle.std.specs.Prelude.{ℕ};
ghost use Rattle.word_mem.specs.Memory.{Mem};
ghost use Rattle.itd_sitd.specs.declared.itd.Itd.{Itd};
ghost use Rattle.itd_sitd.specs.declared.sitd.Sitd.{Sitd};
ghost use Rattle.law_structures.specs.lent_structures.Structures.{Structures, StructureSets};
ghost use Rattle.law_controller.specs.controlled_streams.Kept.{KeepsEach};
ghost use Rattle.law_controller.specs.controller_writes.Leaving.{LeavesRest};
ghost use Rattle.law_driver_ring.specs.Inventory.{SameSorts};
ghost use Rattle.law_driver_ring.specs.Extents.{KeepExtents};
ghost use Rattle.law_descriptors.specs.frame_keeps.Kept.{IsItdAfter, IsSitdAfter, KeepsPart, KeepsParts, HasSlots, HasBytesLeft};
ghost use Rattle.law_descriptors.specs.frame_keeps.Leaving.{LeavesStructures, IsWithin};
ghost use Rattle.law_descriptors.specs.frame_keeps.Laws.{FrameKeeps, WalkKeeps, RingKeeps, ControlKeeps, KeptIsLeft};

use usb_base::Wire;

/// Each event of the walk of the frames keeps so much of each structure, and so do however many of them that follow each other; so does each of the ring's walk,
/// each of the controller's over a ring, and any number of them one after the other.
pub fn each_event_keeps_structures<W: Wire>()
    ensures frames { FrameKeeps W.transacts }
    ensures walk { WalkKeeps W.transacts }
    ensures ring { RingKeeps W.transacts }
    ensures controller { ControlKeeps W.begins W.transacts }
    ensures both { (parts mid now : StructureSets) → KeepsParts parts mid → KeepsParts mid now → KeepsParts parts now }
{}

/// So the structures of queue heads are kept as a ring keeps them, each name has a structure of the same kind, and buffers and tables reach as far.
pub fn what_is_kept()
    ensures queues { (parts now : StructureSets) → KeepsParts parts now → KeepsEach parts now }
    ensures sorts { (parts now : StructureSets) → KeepsParts parts now → SameSorts parts now }
    ensures extents { (parts now : StructureSets) → KeepsParts parts now → KeepExtents parts now }
{}

/// Each descriptor that has the bytes of its active microframes, or those that are left to it, has them still.
pub fn descriptors_keep_their_bytes()
    ensures itd { (part now : Structures) (v w : Itd) → KeepsPart part now → IsItdAfter v w → HasSlots part v → HasSlots now w }
    ensures sitd { (part now : Structures) (v w : Sitd) → KeepsPart part now → IsSitdAfter v w → HasBytesLeft part v → HasBytesLeft now w }
{}

/// The words that are kept stay in memory: those of all structures, and so of some; of queue heads those that a ring leaves.
pub fn words_that_stay()
    ensures all { KeptIsLeft }
    ensures some { (some parts : StructureSets) (m new : Mem) → IsWithin some parts → LeavesStructures parts m new → LeavesStructures some m new }
    ensures rest { (parts : StructureSets) (m new : Mem) → LeavesStructures parts m new → LeavesRest parts m new }
{}
