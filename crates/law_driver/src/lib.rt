//! The driver's content by itself (EHCI 1.0, 3.5, 3.6, 4.6 and 4.8): the owner of each run, what stands in the ring and in the frame
//! list, the order of both, the plan.
//!
//! - `chained_transfers`: The qTDs of an endpoint's transfers as one chain, and the order in which transfers are harvested and given back (EHCI 1.0, 3.5 and
//!   4.10), as facts of a driver's content alone, for drivers whose endpoints are all high-speed bulk ones.
//! - `due_frames`: The frame list stands for the plan (EHCI 1.0, 4.6; USB 2.0, 5.11.3 and 11.18): at each moment of a run of a driver beside a controller the
//!   chain of each frame has the queue heads of the interrupt endpoints that are due in it and not cancelled, each once, also while one is linked or
//!   unlinked, and all that is placed keeps every budget.
//! - `endpoint_lives`: An endpoint on its way out of the ring (EHCI 1.0, 4.8.2), of the driver's content alone: why it has ended, as far as its report has it,
//!   and whether a walk of the ring may still meet its queue head.
//! - `in_place`: Nothing of a driver is out of place (EHCI 1.0, 3, 4.6 and 4.8), at any moment of a run beside a controller: each structure stands in a run of
//!   its own, and all runs are lent but those that a command has still to lend; the ring and the frame list have their members, and the fixed words of queue
//!   heads are those of their endpoints.
//! - `iso_frames`: The frames of isochronous descriptors (EHCI 1.0, 4.6 and 4.7; USB 2.0, 5.11.3): each descriptor that waits for its harvest stands in a frame
//!   in which its endpoint's placement is active, and no two of one endpoint stand in one frame.
//! - `lent_runs`: Which runs of a driver the controller may touch (EHCI 1.0, 3): a run is kept from its taking until the one event that lends all that a
//!   command took, and lent from then until it is given back.
//! - `listed_members`: What stands in the frame list of a driver (EHCI 1.0, 4.6 and 4.7): the queue heads of interrupt endpoints that are in their frames, and
//!   of isochronous endpoints the descriptors that wait in their frames, or were harvested and aren't unlinked yet; while a command links or unlinks them, as
//!   far as it has come.
//! - `listed_queues`: The queue heads of interrupt endpoints in the frame list of a driver (EHCI 1.0, 4.6): each endpoint that is in its frames has its own
//!   there, from its opening until the last store that unlinks it.
//! - `ordered_list`: The frame list of a driver stays in order (EHCI 1.0, 4.6): queue heads by period, phase and order of opening, descriptors by frame, each
//!   in range, and no two members of one name, at each command and event.
//! - `planned_endpoints`: The plan of a driver is what its endpoints have (USB 2.0, 5.11.3; EHCI 1.0, 4.6 and 4.7): at each moment it has the placement of each
//!   periodic endpoint that wasn't given back, in the order of opening, and nothing else.
//! - `queue_head_words`: The words of queue heads that no event writes: the endpoint's characteristics and capabilities (EHCI 1.0, 3.6.2).
//! - `queued_drivers`: The queues of a driver whose endpoints are of any kind (EHCI 1.0, 3.5, 3.6, 4.8 and 4.10; USB 2.0, 5.5 to 5.8): what its content tells
//!   of them (`queued`) is the content of a driver of bulk and control endpoints, so what holds of the queues of these holds of all.
//! - `released_blocks`: What a driver gives back is Free (EHCI 1.0, 4.8.2, 4.10 and 4.12): each block of a transfer that was harvested, of a queue head and its
//!   transfers once the advance interrupt was heard for it, and of what was unlinked from the frame list once its frame has passed.
//! - `ring_members`: The ring of queue heads as its words tell it (EHCI 1.0, 4.8): the head leads to the newest endpoint in the ring, each endpoint to the one
//!   before, and the oldest to the head; one that has left leads to the head, to one in the ring, or to one that left later.
//! - `run_owners`: Whose each run of blocks of a driver is (EHCI 1.0, 3.5, 3.6, 4.8 and 4.10): the frame list, the head of the ring, each queue head, each
//!   inactive qTD at the end of a queue, and the qTDs and buffers of each transfer stand in runs of their own, and each is given back once.
//!
//! The crate has no code of its own: each function is a law, and its body is empty.
#![tactic(auto)]

pub mod chained_transfers;
pub mod due_frames;
pub mod endpoint_lives;
pub mod in_place;
pub mod iso_frames;
pub mod lent_runs;
pub mod listed_members;
pub mod listed_queues;
pub mod ordered_list;
pub mod planned_endpoints;
pub mod queue_head_words;
pub mod queued_drivers;
pub mod released_blocks;
pub mod ring_members;
pub mod run_owners;
