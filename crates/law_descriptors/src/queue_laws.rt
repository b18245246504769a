//! The laws.
ghost use Rattle.law_descriptors.specs.QueueLaws.{EffectIsOfQueues};

use usb_base::Wire;

/// An event of the ring's walk, over the structures of queues and descriptors, is the same event over those of the queues alone: it reads and changes no
/// descriptor.
pub fn effect_is_of_queues<W: Wire>()
    ensures { EffectIsOfQueues W.transacts }
{}
