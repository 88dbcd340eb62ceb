//! The small types that everything stands on: wrapped numbers, sets of small numbers as masks, a bounded list over lent memory, and a short list that lies in its owner.
#![tactic(auto)]

pub mod inline_list;
pub mod list;
pub mod mask;
pub mod numbers;
pub mod ranged;
