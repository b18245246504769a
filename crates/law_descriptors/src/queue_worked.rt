//! A worked row, which the check computes: of a queue head beside an iTD.
ghost use Rattle.std.specs.Prelude.{◌≡◌, Some, None};
ghost use Rattle.law_structures.specs.lent_structures.Structures.{QueueHead, put};
ghost use Rattle.law_frames.specs.PartSamples.{queue};
ghost use Rattle.law_descriptors.specs.Both.{both, parts_now};
ghost use Rattle.law_descriptors.specs.PartWorked.{descs, parts};

/// Where the queue head is put again, it is among what became of the queues' structures; nothing of the iTD is.
pub fn a_queue_head_changes()
    ensures queue { parts_now descs parts (put (both descs parts) 128 128 (QueueHead queue)) 128 128 ≡ Some (QueueHead queue) }
    ensures none { parts_now descs parts (put (both descs parts) 128 128 (QueueHead queue)) 64 64 ≡ None }
{}
