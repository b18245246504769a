//! The streams of a whole run (EHCI 1.0, 4.10; USB 2.0, 8.6): what the report tells of each endpoint against what its device sent and
//! took.
//!
//! - `feeding_laws`, `feeding_worked`: Worlds at work whose endpoints are bulk and control ones (EHCI 1.0, 3.5, 4.6, 4.8 and 4.10; USB 2.0, 5.5, 5.8 and 8.6):
//!   each queue is fed as the driver's content tells, and the bytes of a bulk endpoint's qTDs add up; so they are at the opening, and each event of the driver
//!   and of the controller leaves them so.
//! - `leave_laws`, `leave_worked`: Such worlds while endpoints leave the ring (EHCI 1.0, 4.8.2): a cancel leaves each queue fed, and the bytes of its qTDs add
//!   up still.
//! - `kept`: Such worlds of which some endpoints have left the ring, or were given back (EHCI 1.0, 4.8.2 and 4.10; USB 2.0, 5.8 and 8.6): what was moved and told
//!   of bulk ones of these begins their packets, or what their devices took.
//! - `left_puts`: What is told of puts while an endpoint leaves the ring, and once it was given back (EHCI 1.0, 4.8.2 and 4.10): the buffers of puts hold their
//!   bytes, what was reported and what is still to be sent are the puts, what is out is sent whole, and what was taken begins the puts.
//! - `left_reports`: What a driver's report tells of an endpoint that leaves the ring (EHCI 1.0, 4.8.2 and 4.10; USB 2.0, 8.6): until it is given back what was
//!   told stands, and then its last line tells all that was moved of it.
//! - `narrowed_streams`: Of a driver of bulk and control endpoints several have left the ring, and the doorbell is answered (EHCI 1.0, 4.8.2): the walk doesn't
//!   meet their queue heads any more, and just their streams are closed, IN and OUT. No other endpoint has the name of one of them.
//! - `put_laws`: Puts (EHCI 1.0, 3.5 and 4.10; USB 2.0, 5.8 and 8.6): their bytes in buffers, what is sent of them, what devices took, and what is still to be
//!   sent.
//! - `right_reports`: The report of a world of bulk and control endpoints (USB 2.0, 8.6): where what is told of each IN endpoint begins the packets that the
//!   script has for it, its IN streams are right.
//! - `sending_worlds`: Worlds with OUT endpoints (EHCI 1.0, 4.8 and 4.10; USB 2.0, 5.8 and 8.6): what their report tells of puts, and what their devices took.
//! - `taken_reports`: What the report of a world tells of OUT endpoints (USB 2.0, 8.5 and 8.6): data that were acknowledged have arrived, so the bytes that are
//!   told of an endpoint begin those that its device took, which a closing line of the report tells.
//! - `unlink_worked`: Such a world from which an endpoint leaves (EHCI 1.0, 4.8.2 and 4.10; USB 2.0, 5.8 and 8.6): one store takes its queue
//!   head out of the ring, and in the end its blocks are given back; each other queue is fed as before.
//!
//! The module has no code of its own: each function is a law, and its body is empty.

pub mod commands;
pub mod feeding_laws;
pub mod feeding_worked;
pub mod kept;
pub mod leave_laws;
pub mod leave_worked;
pub mod left_puts;
pub mod left_reports;
pub mod narrowed_streams;
pub mod put_laws;
pub mod right_reports;
pub mod sending_worlds;
pub mod taken_reports;
pub mod unlink_worked;
pub mod worked;
