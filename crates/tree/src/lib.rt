//! The blocks that were made, and what a pool says of them.
#![tactic(auto)]

pub mod payload;
pub mod tree;
