//! The memory of a whole run (EHCI 1.0, 3, 4.6 and 4.8): owners, ring, frame list and walk at each moment of the run of every script.
//!
//! - `framed_memory`: A driver and a controller over one memory, where the controller walks a ring and the frames (EHCI 1.0, 3, 4.6 to 4.10 and 4.12.3): each
//!   of its events leaves the driver all that it has to find again, its frame list, and its structures, and goes on over both.
//! - `linked_rings`: Worked rings of two queue heads.
//! - `links`: Where the links of structures lead (EHCI 1.0, 3.1, 3.6.1, 4.6, 4.8 and 4.8.2), and for whom the doorbell was rung.
//! - `microphone`: A worked script, of one isochronous endpoint.
//! - `owned_blocks`: No run of blocks leaks (EHCI 1.0, 3, 4.8.2 and 4.10): each run that a driver has is that of the frame list, of the head of the ring, of a
//!   queue head or an inactive qTD of an endpoint that wasn't given back, or of a qTD, an isochronous descriptor or a buffer of a transfer that wasn't.
//! - `pipe_steps`: What steps of the queues leave of the streams of endpoints at high speed, beside all others (EHCI 1.0, 4.6, 4.8 and
//!   4.10; USB 2.0, 5.7, 5.8 and 8.6).
//! - `reach`: All that the controller can come to from where it stands is Lent (EHCI 1.0, 3, 4.6, 4.8, 4.10 and 4.12), at each moment of each script that a text spells.
//! - `releases`: What left the ring or the frame list is given back only after the controller has shown that it let go of it (EHCI 1.0, 2.3.2, 2.3.4, 4.6 and 4.8.2).
//! - `owners`: Whose the words of memory are (EHCI 1.0, 3.3, 3.4, 3.5, 3.6, 4.7.1, 4.10 and 4.12.3).
//! - `queue_steps`: What steps of the queues leave to be told, and a worked step, the harvest of an interrupt endpoint's get.
//! - `running_worlds`: Worlds whose controller runs, whatever the script opens (EHCI 1.0, 2.3.1, 2.3.2 and 4.15.2.4): meanwhile Host System Error is 0, and no
//!   refusal is counted.
//! - `runs`: So it is at each moment of each script that a text spells, and its memory is kept: runs, members and fixed words are in place, the words of the ring and of the frame list stand for the
//!   driver's, and the controller meets no fault.
//! - `worked`: A script with an interrupt endpoint behind a hub and a bulk one beside it meets the premises, and moments of it are computed.
//! - `world_frames`: The frames of a driver along the run of each script (EHCI 1.0, 4.6 and 4.7; USB 2.0, 5.11.3 and 11.18): at each moment each frame has what
//!   is due in it, each once, while endpoints are opened, cancelled and served.
//! - `worlds_keep_to_lent`: What the controller touches at each moment of a script (EHCI 1.0, 4.6, 4.8.2 and 4.10): words of Lent blocks alone.
//! - `worlds`: Before the first line, and after each event of the controller and of the driver and each command, a world is mixed; each
//!   event of the driver is a step of its queues, or none.
//!
//! The module has no code of its own: each function is a law, and its body is empty.

pub mod framed_memory;
pub mod linked_rings;
pub mod links;
pub mod microphone;
pub mod owned_blocks;
pub mod owners;
pub mod pipe_steps;
pub mod queue_steps;
pub mod reach;
pub mod releases;
pub mod running_worlds;
pub mod runs;
pub mod worked;
pub mod world_frames;
pub mod worlds;
pub mod worlds_keep_to_lent;
