//! What queue heads come to (EHCI 1.0, 3.5, 3.6, 4.10 and 4.10.2): where a transfer of a bulk or interrupt endpoint is unfinished, the
//! queue head that isn't halted works on a qTD, or goes on to one that is active.
//!
//! - `onward`: What a queue head left behind is done, or was passed over after a short packet; so it is at each moment of each script.
//! - `worked`: Worked rows.
//!
//! The module has no code of its own: each function is a law, and its body is empty.

pub mod onward;
pub mod worked;
