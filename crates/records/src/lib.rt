//! The record of a run: its refusals, the honest seats at its end, and its counts, as lines.
#![tactic(auto)]

pub mod refusal;
pub mod seat;
pub mod totals;
