//! Tests of the programs' top calls, over sources and sinks in memory of which chosen calls fail.
//!
//! A library of no code: `of_app_probe_cli` calls `ehci_probe`, the others call `ehci_machine`, which is all that `ehci` calls. They stand
//! above both crates, since the tests of a crate are proved together with all of its code.
#![tactic(auto)]

#[cfg(test)]
mod of_app_machine;
#[cfg(test)]
mod of_app_probe_cli;
#[cfg(test)]
mod of_ehci_dump;
#[cfg(test)]
mod of_ehci_load;
