//! The blocks that a seat has noted in its round.
#![tactic(auto)]

pub mod blocks;
