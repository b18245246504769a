//! The memory that the controller reaches, whatever it is made of (EHCI 1.0, 2.3.2 and 3): `HcMemory`, of which `WordMem`, the words that a
//! driver shares with it, is one kind. `Mem` tells its content.
#![tactic(auto)]

mod memory;

pub use memory::HcMemory;
