//! A seat that follows the rules, with or without a hall.
#![tactic(auto)]

pub mod context;
pub mod fault;
pub mod outgoing;
pub mod seat;
pub mod signing;
