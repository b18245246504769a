//! The control requests of a whole run (EHCI 1.0, 4.10 and 4.12; USB 2.0, 8.5.3): each device acts at most once, and the report tells of
//! it.
//!
//! - `asked_worked`: A worked request along its run, from its open to its act and to the line that tells it done (EHCI 1.0, 4.8 and 4.10; USB 2.0, 8.5.3).
//! - `below`: Control endpoints below hubs (EHCI 1.0, 4.4 to 4.12; USB 2.0, 8.5.3, 11.17 and 11.18), at each event of the controller.
//! - `cancel_line`: What the line of a cancel tells of the requests that wait (EHCI 1.0, 4.8.2 and 4.10; USB 2.0, 8.5.3).
//! - `cancelled`: What the lines of a control endpoint that was cancelled tell, but for the one of its cancel (EHCI 1.0, 4.8.2; USB 2.0, 8.5.3).
//! - `driver_requests`: The control requests of a driver's endpoints are those of the ring's queue heads (EHCI 1.0, 3.5, 3.6 and 4.10; USB 2.0, 8.5.3): each is
//!   a transfer, and is found by the place of its SETUP.
//! - `high`: Worlds with endpoints of every kind: the requests of control endpoints at high speed (EHCI 1.0, 4.8 and 4.10; USB 2.0, 5.5
//!   and 8.5.3). Each event of the driver and each command leaves them as they must stand, whatever else is open.
//! - `queue_laws`, `queue_worked`: The queues of the control endpoints of a ring (EHCI 1.0, 3.5, 4.8 and 4.10; USB 2.0, 8.5.3): each asks the requests that were
//!   published, one after the other, or is at rest, also halted until it is mended. So it is after each event of the controller, after each store, lend and
//!   return of a driver beside the requests, after a request was published, is done or was halted, and where an endpoint comes or goes.
//! - `report_laws`, `report_worked`: What the lines of a report tell of these requests along its run (EHCI 1.0, 4.8 to 4.10): of each that is reported its
//!   window, in their order.
//! - `request_bytes`: The bytes of a control transfer's SETUP and of its data OUT in the buffers that the driver took for them (EHCI 1.0, 3.5.4 and 4.10; USB
//!   2.0, 9.3): they stand there once the request was accepted, and stay until the buffers are lent; then its qTDs are as a new request's must be.
//! - `told_requests`: What the report of a world tells of control requests (EHCI 1.0, 4.10; USB 2.0, 8.5.3): each line of a control endpoint tells of one
//!   request, in their order; its closing line tells how often the device acted; and the requests of a driver's transfers are those that the script has for the
//!   endpoint by the report.
//! - `transfer_laws`, `transfer_worked`: What a run records of the requests of a driver's control endpoints, beside the queues in which they stand: in the window
//!   of each the device acts at most once, and on nothing but its setup bytes.
//! - `world_requests`: The control requests of a world (EHCI 1.0, 4.6, 4.8 and 4.10; USB 2.0, 8.5.3): each event of the controller is at most one transaction
//!   of one of the requests, or the advance of one queue head to its next request, and leaves all windows as they must stand, so that at any moment a request
//!   whose status memory shows to have ended was acted on exactly once by its scripted device.
//!
//! The module has no code of its own: each function is a law, and its body is empty.

pub mod asked_worked;
pub mod below;
pub mod cancel_line;
pub mod cancelled;
pub mod driver_requests;
pub mod harvests;
pub mod high;
pub mod no_misses;
pub mod queue_laws;
pub mod queue_worked;
pub mod report_laws;
pub mod report_worked;
pub mod request_bytes;
pub mod texts;
pub mod told_data;
pub mod told_requests;
pub mod transfer_laws;
pub mod transfer_worked;
pub mod world_requests;
