//! Draws: which rank each seat has in each round. One computes its ranks, the other reads them from a table.
#![tactic(auto)]

pub mod draw;
pub mod fault;
pub mod rotation;
pub mod sizes;
pub mod table;
