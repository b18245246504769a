//! Words of any number that are lent to the controller (EHCI 1.0, 2.3.2): an emulator's memory as it stands.
#![tactic(auto)]

mod ram;
pub mod worked;

pub use ram::{Lender, Loan, Ram};
