//! Puts (EHCI 1.0, 3.5 and 4.10; USB 2.0, 5.8 and 8.6): their bytes in buffers, what is sent of them, what devices took, and what is still to be sent.
//!
//! - `byte_laws`, `byte_worked`: The bytes of a put in the buffers that the driver took for it (EHCI 1.0, 3.5.4 and 4.10): they stand there once the put was
//!   accepted, and stay until the buffers are lent.
//! - `held_laws`, `held_worked`: What stands in the buffers of a put is what the put asked to send, at each moment, whatever the controller does (EHCI 1.0,
//!   3.5.4, 4.8 and 4.10).
//! - `sent_laws`, `sent_worked`: The OUT endpoints of a driver, at each command and event (EHCI 1.0, 3.5, 4.6, 4.8 and 4.10): the qTDs of each are sent whole
//!   and in turn, whatever is accepted, lent, stored, linked, harvested or given back, and whatever the controller does. So of each qTD of a put that a harvest
//!   finds done all bytes were moved.
//! - `taken_laws`, `taken_worked`: The lines that a run takes, and the puts of its driver (EHCI 1.0, 4.8 and 4.10; USB 2.0, 5.8 and 8.6): at each moment the
//!   puts of the transfers of an OUT endpoint, one after the other, begin the stream that the report has of it, and once all lines were taken they are that
//!   stream.
//! - `owed_laws`, `owed_worked`: What is still to be sent of the puts to OUT endpoints, and what their devices took (EHCI 1.0, 3.5.4, 4.8 and 4.10; USB 2.0,
//!   5.8 and 8.6): what a driver has reported of an OUT endpoint that goes on, and then what stands in the buffers of its qTDs that aren't harvested, are all its puts, so
//!   what its device took begins them.
//!
//! The module has no code of its own: each function is a law, and its body is empty.

mod byte_laws;
pub mod byte_worked;
pub mod held_laws;
pub mod held_worked;
pub mod owed_laws;
pub mod owed_worked;
pub mod sent_laws;
pub mod sent_worked;
mod taken_laws;
mod taken_worked;

pub use byte_laws::{held_stays, put_is_held, puts_are_filled};
pub use taken_laws::{
    all_are_taken, command_takes_puts, event_keeps_puts, moments_take_puts, puts_stay,
    streams_are_of_puts, texts_rise, tick_takes_puts,
};
pub use taken_worked::{a_put_is_accepted, a_put_is_refused, lines_taken, numbers};
