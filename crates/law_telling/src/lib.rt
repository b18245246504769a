//! Why a driver's lines tell what they tell (EHCI 1.0, 3.5.3, 3.6.3, 4.10 and 4.15): by the words of memory that it reads, with as many
//! bytes as were moved.
//!
//! The crate has no code of its own: each function is a law over the definitions of `drv_table`, and its body is empty.
#![tactic(auto)]

pub mod worked;

ghost use Rattle.law_telling.specs.Laws.{DriversTellForReasons};
ghost use Rattle.law_telling.specs.Lengths.{LengthsAddUp, OneQtdTells};
ghost use Rattle.law_telling.specs.Passing.{EventsKeepTransfers};

/// Each line that an event of the driver writes has its reason in the words that the driver reads.
pub fn drivers_tell_for_reasons()
    ensures { DriversTellForReasons }
{}

/// A line is as long as the bytes moved in its qTDs, each its length less what is left in its token.
pub fn lines_are_as_long_as_what_was_moved()
    ensures all { LengthsAddUp }
    ensures one { OneQtdTells }
{}

/// An event keeps what was asked of each transfer, and notes of a qTD whose token it reads the bytes that were moved.
pub fn events_keep_transfers()
    ensures { EventsKeepTransfers }
{}
