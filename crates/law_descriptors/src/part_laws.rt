//! The laws.
ghost use Rattle.law_descriptors.specs.PartLaws.{QueuesApart, DescriptorsApart, BothAreTold, EachIsTold, RingIsOfQueues, RingIsOfBoth, ListIsOfQueues};
ghost use Rattle.law_descriptors.specs.PartLaws.{ItdCanBeMet, SitdCanBeMet, FramesKeep, RingKeeps, DescribedStay, DescribedFollow};

use usb_base::Wire;

/// Nothing of a descriptor has the owner of a queue, and the other way.
pub fn descriptors_stand_beside_queues()
    ensures queues { QueuesApart }
    ensures descriptors { DescriptorsApart }
{}

/// The driver's runs share no block: so where memory is told by the structures of its queues, and each descriptor stands there with its buffer, it is told
/// by both; and where it is told by both, it is told by each.
pub fn memory_is_told_by_both()
    ensures both { BothAreTold }
    ensures each { EachIsTold }
{}

/// The ring and the frame list are among the queues' structures, whether the descriptors stand beside them or not.
pub fn the_ring_is_of_the_queues()
    ensures queues { RingIsOfQueues }
    ensures both { RingIsOfBoth }
    ensures list { ListIsOfQueues }
{}

/// A descriptor that stands there can be met by the walk of the frames, where its link leads to others that are met.
pub fn a_descriptor_can_be_met()
    ensures itd { ItdCanBeMet }
    ensures sitd { SitdCanBeMet }
{}

/// An event of the walk of the frames, and one of the ring's walk, leaves each structure of its kind where it is and as far as it reaches; and the bytes of
/// each descriptor that is still active lie in its buffer.
pub fn each_event_keeps_descriptors<W: Wire>()
    ensures frames { FramesKeep W.transacts }
    ensures ring { RingKeeps W.transacts }
{}

/// So the driver's descriptors are described after it, and its queues have what they had; and so they are where the driver tells the same of them.
pub fn descriptors_stay()
    ensures stay { DescribedStay }
    ensures follow { DescribedFollow }
{}
