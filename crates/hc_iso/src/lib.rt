//! What a visit of the frame's chain makes of an isochronous descriptor (EHCI 1.0, 3.3, 3.4, 4.7.1 and 4.12.3).
//!
//! An iTD: `HeldItd::fetched` makes its copy for a microframe, `HeldItd::next` tells its next transaction, `HeldItd::settle` puts the reply
//! into the copy, and `write_itd` and `raise_itd` write it back. A siTD: `turn`, `HeldSitd::next`, `HeldSitd::settle`, `HeldSitd::miss`,
//! `write_sitd` and `raise_sitd`.
#![tactic(auto)]

mod held;
mod itds;
mod sitds;
pub mod worked;
mod writing;

pub use held::{
    Heard, HeldItd, HeldSitd, IsoEnd, IsoTransaction, SitdTurn, SplitHeard, SplitOutcome,
};
pub use sitds::turn;
pub use writing::{bytes, load_itd, load_sitd, raise_itd, raise_sitd, write_itd, write_sitd};
