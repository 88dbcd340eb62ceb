//! Entries of the catalogue, and when two of them are alike.
#![tactic(auto)]

pub mod card;
pub mod entry;
pub mod slip;
