//! A hall of seats: the opening and the nine calls.
#![tactic(auto)]

pub mod fault;
pub mod hall;
