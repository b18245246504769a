//! The chains of the periodic frame list as one reads them from words, at each store that links or unlinks a member (EHCI 1.0, 4.6).
//!
//! `specs/InWords.antt` says when words stand for a list, also while something is under way; `laws` says that each store keeps it so. No
//! code. Below it stand `drv_periodic`, which tells the stores, and `drv_chains`, whose laws speak of links.

pub mod laws;
pub mod worked;
