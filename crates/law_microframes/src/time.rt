//! What the two walks of a microframe visit, what that costs, and that the microframe ends, along the run of each script (EHCI 1.0, 4.4, 4.6 to 4.8, 4.8.2, 4.8.3, 4.10, 4.10.3 and 4.12;
//! USB 2.0, 5.9 and 5.11.3): the visits of the frames cost no more than the plan's load; between two visits to the head of the ring each queue head is visited at most once, while queue
//! heads are linked and unlinked; and how many events of the controller may still come in the microframe is told by its part, what is in hand, the time that is left and what the walks
//! have visited: each event but the last lowers that number.
//!
//! - `chain_visits`: With a copy in hand of the walk of the frames each event leaves fewer events of the visit, or takes its time.
//! - `charges`: What an event of the walk of a frame's chain costs, told by the copy in hand, so that charges can be summed along a run: a visit costs at most its placement, and
//!   visits to different placed endpoints together at most the load of their microframe.
//! - `counts`: Blocks that differ are no more than memory has; each transaction of the ring costs the least price or more, so there are no more than the time left allows.
//! - `data_queues`: The queues of interrupt endpoints carry data alone: each of their transactions is an IN or an OUT, since only a control request has a SETUP.
//! - `driver_rounds`: So they do at each event and command of the driver; so in no round of any run a queue head is visited twice.
//! - `heads`, `head_samples`: Without a transaction between, the walk of the ring reads its head at most once while the asynchronous part goes on; the next read ends it.
//! - `payment_times`: So no transaction of the periodic part is skipped for want of time, but in a held microframe or after one made again.
//! - `payments`: What the visits of a microframe cost together along a run: no more than its load.
//! - `repeats`: A complete-split of an interrupt endpoint is made again at once after silence, or what no translator says; after each word
//!   of a translator it isn't.
//! - `ring_splices`: The two stores of the ring by the links before and after them, and what every other event of the driver and each command leaves of the ring.
//! - `rounds`, `round_samples`: What was visited since the head was read, as the run tells it: links lead from higher queue heads to lower ones, at each event of the controller.
//! - `sitds`: The words of siTDs tell of their endpoints, in memory and in hand, and what is left of a packet is in parts, along a run.
//! - `splits`: What the split transactions of queue heads and of siTDs cost, and the masks by which they are made: each placement of the
//!   plan is allowed.
//! - `steps`: With a copy in hand each event of the walk of the ring leaves fewer events of the visit: at most three after a fetch.
//! - `turns_end`, `turn_samples`: So each microframe of a run ends, and each run carries out all the lines of its script.
//!
//! The module has no code of its own: each function is a law, and its body is empty.

pub mod chain_visits;
pub mod charges;
pub mod counts;
pub mod data_queues;
pub mod driver_rounds;
pub mod head_samples;
pub mod heads;
pub mod payment_times;
pub mod payments;
pub mod repeats;
pub mod ring_splices;
pub mod round_samples;
pub mod rounds;
pub mod sitds;
pub mod splits;
pub mod steps;
pub mod turn_samples;
pub mod turns_end;
