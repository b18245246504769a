//! The world of a script: memory, registers, the host controller, its driver and the bus, which go on event by event as the script orders
//! (EHCI 1.0, 4; USB 2.0, 8).
//!
//! `World::build` makes it at the end of microframe 0, `event` makes one event, `offer` offers one command, and `run` carries out all lines.
//! Contracts see it as `StandingAtWork` of specs/AtWork.antt: what is fixed of its bus, and the content `WorldAtWork`: the record `World` of the
//! contents of its parts, the job of its driver, and marks of resets. specs/RunsAtWork.antt has runs (`IsRunAtWork`) and the world at the
//! beginning, specs/ClosingAtWork.antt the report that `print` gives of it, and specs/Closing.antt the image that `image` gives. Runs of a
//! driver without jobs are in specs/Orders.antt; a script that clears no halt has such a run.
#![tactic(auto)]

pub mod budgets;
mod build;
mod closing;
mod epochs;
mod marks;
pub mod plain;
mod running;
pub mod worked;
mod world;

pub use marks::Mark;
pub use world::World;
