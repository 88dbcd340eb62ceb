//! What a hall is opened with: seats, rounds, ranks, corrupt seats, delays and the likeness of entries.
#![tactic(auto)]

pub mod fault;
pub mod plan;
