//! What is told of the queues of worlds with endpoints of every kind (EHCI 1.0, 4.10; USB 2.0, 5.5 to 5.8 and 8.6): the lines of the report
//! tell what was harvested of each bulk and interrupt endpoint's queue, and this is what was moved of it, in order.
//!
//! - `telling_events`: So it is at each moment of each script: it stays at each event and at each command.
//! - `telling_steps`: .. at each step of a queue.
//! - `worked`: Worked rows.
//!
//! The module has no code of its own: each function is a law, and its body is empty.

pub mod telling_events;
pub mod telling_steps;
pub mod worked;
