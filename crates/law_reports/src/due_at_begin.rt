//! What is due at high speed as its microframe begins is done in it, along the run of each script (EHCI 1.0, 3.6.2, 4.4, 4.6, 4.7 and 4.10;
//! USB 2.0, 5.7.4 and 8.6).
//!
//! - `due`: What was due of a high-speed interrupt endpoint as its microframe began is done once the walk of the frames is over.
//! - `framed`: What was in the frame list as a frame began stays there.
//! - `sitds`: Each siTD of which a transaction was due as its microframe began had it, and was written back.
//! - `sitds_worked`: Worked rows of a speaker and of a microphone behind a hub.
//! - `slots`: Each slot of an isochronous transfer descriptor that was due as its microframe began is done too.
//! - `slots_worked`: Worked rows of a microphone.
//! - `split_frames_worked`: Worked rows of a keyboard behind a hub, along a frame.
//! - `splits`: Each start-split and each complete-split of an interrupt endpoint that was due as its microframe began is made in it.
//! - `splits_worked`: Worked rows of a keyboard behind a hub.
//! - `stored`: What was asked of an isochronous endpoint for a frame is due in it.
//! - `unfinished`: Where a transfer of an interrupt endpoint is unfinished a transaction of it is due.
//! - `worked`: Worked rows of a keyboard.
//!
//! The module has no code of its own: each function is a law, and its body is empty.

pub mod due;
pub mod framed;
pub mod sitds;
pub mod sitds_worked;
pub mod slots;
pub mod slots_worked;
pub mod split_frames_worked;
pub mod splits;
pub mod splits_worked;
pub mod stored;
pub mod unfinished;
pub mod worked;
