//! The laws of the two stores of a link of the ring.
ghost use Rattle.law_world.specs.memory.framed_memory.Ring.{HeadIsMet, OpenLendMeets, OpenLendNow, OpenLentStaysNow, OpenLinkMeets, OpenLinkNow, UnlinkIsDue, UnlinkMeets, UnlinkNow};

use usb_base::Wire;

/// The queue head of an accepted open of an endpoint of the ring is lent (4.8.1): all is framed with it and its inactive qTD, and it waits for the link of the ring's head,
/// whatever the controller does: neither walk meets it. The walk of the ring meets the same queue heads.
pub fn a_lent_queue_waits_beside_both_walks<W: Wire>()
    ensures lend { OpenLendNow }
    ensures meets { OpenLendMeets }
    ensures stays { OpenLentStaysNow W.begins W.transacts }
{}

/// The last store of an open of an endpoint of the ring (4.8.1): the head of the ring leads to its queue head from then on, which the walk of the ring may meet and that of
/// the frames doesn't, and all is framed with that link. Where the walk met the queue heads of the driver before, it meets them then.
pub fn a_linked_queue_is_framed_now()
    ensures head { HeadIsMet }
    ensures framed { OpenLinkNow }
    ensures meets { OpenLinkMeets }
{}

/// The store that leads past a cancelled endpoint's queue head (4.8.2): all is framed with the link of the queue head before it, and the walk of the ring may meet the same
/// queue heads until the doorbell was answered. Which queue heads these are is told by the words of the ring.
pub fn an_unlinked_queue_is_framed_now()
    ensures due { UnlinkIsDue }
    ensures framed { UnlinkNow }
    ensures meets { UnlinkMeets }
{}
