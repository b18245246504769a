//! A worked row, which the check computes: of a driver with one iTD beside a queue head.
ghost use Rattle.std.specs.Prelude.{◌≡◌, Some, None};
ghost use Rattle.law_structures.specs.lent_structures.Structures.{QueueHead, Buffer, Isochronous};
ghost use Rattle.law_frames.specs.PartSamples.{itd, queue, bytes, pages};
ghost use Rattle.law_descriptors.specs.Described.{AreDescribed};
ghost use Rattle.law_descriptors.specs.Both.{both};
ghost use Rattle.law_descriptors.specs.PartWorked.{view, descs, parts};

/// The iTD is described with its buffer, and both have it and the queue head, and nothing where neither is.
pub fn an_itd_is_described()
    ensures described { AreDescribed view descs }
    ensures itd { both descs parts 64 64 ≡ Some (Isochronous itd) }
    ensures buffer { both descs parts 64 192 ≡ Some (Buffer pages 192 bytes) }
    ensures queue { both descs parts 128 128 ≡ Some (QueueHead queue) }
    ensures nothing { both descs parts 128 64 ≡ None }
{}
