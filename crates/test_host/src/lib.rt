//! Tests of the host's parts that stand below the controller: transactions and their toggles, a translator's pipeline, admission, registers
//! (EHCI 1.0, 2.3, 4.10 and 4.12; USB 2.0, 5.11.3, 8.5 and 11.18), scripted devices, reports and the ends of a program.
//!
//! A library of no code: each module calls the crate that it is named after. They stand together above those crates, since the tests of a
//! crate are proved together with all of its code.
#![tactic(auto)]

#[cfg(test)]
mod of_app_ends;
#[cfg(test)]
mod of_bandwidth;
#[cfg(test)]
mod of_endpoint_script;
#[cfg(test)]
mod of_op_registers;
#[cfg(test)]
mod of_report_text;
#[cfg(test)]
mod of_toggle_error;
#[cfg(test)]
mod of_transactions;
#[cfg(test)]
mod of_tt_pipeline;
#[cfg(test)]
mod of_usb_base;
