//! That a translator's periodic pipeline keeps up with the budget (USB 2.0, 11.18): where the start-splits of a frame
//! come from a plan that lays at most 188 byte-times in each microframe, each entry has had what is laid for it, one microframe
//! later where endpoints have stuffed bits; so the results are there by the last complete-splits. There are laws here and no
//! code. They speak of the words of `tt_pipeline`; `bandwidth` makes the plans.
#![tactic(auto)]

pub mod hub_plans;
pub mod laws;
pub mod worked;
